//! The marks of a record as text, one line a mark, and an audit of the rules that a legal record keeps, one by one.
#![tactic(auto)]

mod auditor;
mod checks;
mod finding;
mod names;
mod notes;
mod printing;
mod reading;
mod tables;
mod text;
mod told;
mod words;

pub use auditor::{
    Auditor, Broken, broken_rules_are_one, legal_goes_on, rules_are_legal, verdicts_are_one,
    verdicts_stay,
};
pub use finding::{Finding, print_finding};
pub use printing::{has_text, print_mark};
pub use reading::read_mark;
pub use text::{AuditFault, audit_text, records_are_read};
