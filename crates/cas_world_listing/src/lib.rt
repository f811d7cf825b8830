//! Listings: how far the members of an era have told their keys, and which keys are still to be proposed anew.
//!
//! What is listed lives here alone. Who asks the members lives in `cas_world`, and who proposes a key anew in `casreg_script`.
#![tactic(auto)]

mod keys;
mod listing;
mod page;
mod place;
mod places;

pub use listing::Listing;
pub use page::told_by;
pub use places::Places;
