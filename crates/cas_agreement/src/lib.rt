//! What members that agree on a key told of it. A law is the contract of a function that does nothing; its lemmas serve the
//! crates that read.
#![tactic(auto)]

ghost use Rattle.cas_model.specs.View.{meaning};
ghost use Rattle.cas_agreement.specs.Nothing.{ReadsOfNothingFindNothing};
ghost use Rattle.cas_agreement.specs.Told.{AgreedStatesAreTold};

use cas_disk::Disk;
use cas_slot::Shelf;

/// Where members agree on a ballot above zero, the one at the place that is named told a state that was accepted at it in this era.
pub fn agreed_states_are_told()
    ensures { AgreedStatesAreTold }
{}

/// Where members agree that they accepted nothing, what was settled of the key at any time before leaves the empty state, if no floor of the
/// key was made since.
pub fn reads_of_nothing_find_nothing<S: Shelf, V: Disk>()
    ensures { ReadsOfNothingFindNothing (meaning S.Shelf V.Disk) }
{}
