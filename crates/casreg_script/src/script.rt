//! What a script in progress keeps.

use crate::halt::Halt;
use crate::network::Network;
use cas_disk::Disk;
use cas_slot::Shelf;
use cas_world::World;
use std::marker::Model;

/// How many proposers a world may have, the operator's among them.
pub(crate) const PROPOSERS: usize = 17;

/// A script in progress: its world, and what its lines have set so far. Between two lines no call is open.
#[derive(Drop)]
pub struct Script<S: Shelf, V: Disk> {
    /// The world that the lines run in.
    pub(crate) world: World<S, V>,
    pub(crate) network: Network,
    /// Where each proposer is to halt, at the place of its number.
    pub(crate) halts: [Halt; PROPOSERS],
    /// The greatest number of a proposer.
    pub(crate) proposers: u8,
    /// How many rounds a change has at most.
    pub(crate) tries: u8,
}

impl<S: Shelf, V: Disk> Model for Script<S, V> {
    ghost use Rattle.casreg_script.specs.Stage.{Stage, IsStage};

    ghost Value = { Stage S V };

    ghost view = { λ s. record { world = s.world; network = s.network; halts = s.halts; tries = s.tries } };

    ghost invariant = { λ s. IsStage (record { world = s.world; network = s.network; halts = s.halts; tries = s.tries }) s.proposers };
}
