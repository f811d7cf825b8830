//! Changes of membership as plans: which eras are entered one after another, and when an era has to be settled before
//! the next.
//!
//! A plan is pure: it says what comes next and is told what was done. Whoever plays it enters the eras and settles them.
//! The steps are stricter than those of Rystsov 2018, section 2.3.
#![tactic(auto)]

mod plan;

pub use plan::{MOST_MEMBERS, Plan, PlanStep};
