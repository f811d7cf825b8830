//! Tests of the public calls of the parts that read and write text: sources, sinks and lines, commands and answers, and the text of a
//! record with its audit. They stand in a crate of their own, so that each part is proved once.
//!
//! Nothing here runs in the program.
#![tactic(auto)]

#[cfg(test)]
mod answer;
#[cfg(test)]
mod auditor;
#[cfg(test)]
mod command;
#[cfg(test)]
mod lines;
#[cfg(test)]
mod mark_printing;
#[cfg(test)]
mod mark_reading;
#[cfg(test)]
mod op_answer;
#[cfg(test)]
mod record_text;
#[cfg(test)]
mod sink;
#[cfg(test)]
mod source;
