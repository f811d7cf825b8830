//! The world, and what is known of it because no call stops anybody.

ghost use Rattle.std.specs.Prelude.{◌≡◌, List, ℕ, suc, reverse};
ghost use Rattle.cas_model_causes.specs.Eras.Tellings.{AreTellingsSo};
ghost use Rattle.cas_model.specs.SafeLaws.{HasPlaces};
ghost use Rattle.cas_model.specs.Openings.{Opening, IsOpeningOn};
ghost use Rattle.cas_model.specs.View.{meaning};
ghost use Rattle.cas_board_world.specs.Steady.{IsBlamed, AreMembersUp, AreDesksUp, AreAgesCovered};

use cas_disk::Disk;
use cas_slot::Shelf;
use cas_world::World;
use std::marker::Model;

/// A world in which no call stops or restarts an acceptor or a proposer. Contracts see it as that world.
///
/// Who is down there has failed: the count of faults of its disk is above 0. So has who is blamed by an answer or by a mark.
#[derive(Drop)]
pub struct SteadyWorld<S: Shelf, V: Disk> {
    pub(crate) world: World<S, V>,
}

impl<S: Shelf, V: Disk> Model for SteadyWorld<S, V> {
    ghost use Rattle.cas_model.specs.View.{View, meaning};
    ghost use Rattle.cas_board_world.specs.Steady.{IsSteady};

    ghost Value = { View S V };

    ghost view = { λ w. w.world };

    ghost invariant = { λ w. IsSteady (meaning S.Shelf V.Disk) w.world };
}

impl<S: Shelf, V: Disk> SteadyWorld<S, V> {
    /// A world in which nothing has happened, or nothing but that floors were marked, and the members and the proposers are up. No
    /// acceptor asks the operator's proposer for more than its age.
    pub fn over(world: World<S, V>) -> SteadyWorld<S, V>
        requires opening { (members used : List ℕ) × (floors : List Opening)
            × IsOpeningOn (meaning S.Shelf V.Disk) members used floors world
            × AreMembersUp members world.acceptors }
        requires ages { S.tells → V.tells → AreAgesCovered (meaning S.Shelf V.Disk) world }
        requires places { HasPlaces world }
        requires desks { AreDesksUp world.desks }
        ensures { result ≡ world }
    {
        SteadyWorld { world }
    }

    /// The world. Each mark in it that blames somebody blames one that has failed, and what it tells of the operator's calls is so.
    pub fn into_world(self) -> World<S, V>
        ensures same { result ≡ self }
        ensures blamed { IsBlamed (meaning S.Shelf V.Disk) self }
        ensures tellings { S.tells
            → V.tells → AreTellingsSo (suc self.last_proposer) (reverse self.marks) }
    {
        let SteadyWorld { world } = self;
        world
    }
}
