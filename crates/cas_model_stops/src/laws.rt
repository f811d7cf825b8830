//! What stopped acceptors hold, on shelves of any kind and with proposers on disks of any kind.

ghost use Rattle.cas_model.specs.View.{meaning};
ghost use Rattle.cas_model_stops.specs.Stopped.{StartedAreWhole, StoppedAreClear, WhatStoppedHold};

use cas_disk::Disk;
use cas_slot::Shelf;

/// What an acceptor may leave that has started is whole, wherever it stops: its slots, and no foreign byte.
pub fn started_acceptors_are_whole<S: Shelf, V: Disk>()
    ensures { StartedAreWhole (meaning S.Shelf V.Disk) }
{}

/// Whatever a member of an era in which a proposer works may leave, up or down, it accepted nothing of a key below a floor of it: it has no
/// state of the key, or one at or above the floor.
pub fn stopped_members_are_clear<S: Shelf, V: Disk>()
    ensures { StoppedAreClear (meaning S.Shelf V.Disk) }
{}

/// What members of an era hold that stopped, each with whatever it may have left, if a prepare quorum of the era is among them and a proposer
/// works in it. The greatest ballot that one of them accepted of a key is at the end of a history that begins with what is settled, and its
/// state is the one that this history leaves. Where none accepted anything of the key, what is settled leaves the register empty.
pub fn what_stopped_acceptors_hold<S: Shelf, V: Disk>()
    ensures { WhatStoppedHold (meaning S.Shelf V.Disk) }
{}
