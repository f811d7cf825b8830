//! The text of histories, and sheets, over worked rows.

mod histories;
mod tasks;
