//! How a run of the program ends.

ghost use Rattle.std.specs.Prelude.{◌≡◌};
ghost use Rattle.casreg_command.specs.Status.{number_of};
ghost use Rattle.casreg_command.specs.declared.status.Status.TheVariants.{WriteFault, NoMemory};

use cas_audit::AuditFault;
use cas_lines::lines::LineFault;
use cas_lines::source::Failed;
use cas_reopen::ReopenFault;
use cas_store::RackFault;
use cas_world::OpenFault;
use casreg_marks::MarksFault;
use casreg_race::RaceFault;
use casreg_tasks::histories::HistoryFault;
use std::alloc::AllocError;

/// How a run ends. Its number is the exit status of the program.
#[derive(Clone, Copy, Debug, PartialEq, Eq)]
pub enum Status {
    /// All answers were written, and the input was read to its end.
    Ok,
    /// The words are not those of a command. Nothing was read or written.
    Usage,
    /// The source failed. The answers to the lines before were written; of a race nothing was.
    ReadFault,
    /// The sink failed. It has a front of the answers.
    WriteFault,
    /// The disk of this number was not empty, and no disk before it failed: 0 to 63 for those of the acceptors, 64 to 80 for those of the
    /// vaults. It comes of a race alone. Nothing was read or written, and each disk keeps what it held.
    NotEmpty { disk: u8 },
    /// The disk of this number failed as the store was opened, numbered likewise. Nothing was read or written.
    DiskFault { disk: u8 },
    /// The input has more than 1,000,000 lines. The answers to that many were written; of a race nothing was.
    TooManyLines,
    /// There was no memory. The sink has a front of the answers.
    NoMemory,
    /// The line of this number has more than 65,536 bytes. The answers to the lines before were written; of a race nothing was.
    Endless { line: u32 },
    /// What stands on the disk of this number is none of a store: the byte at this place is the first that is not as the format demands.
    /// No line was read, and nothing was written. What was settled stands on the members' disks still.
    Foreign { disk: u8, at: u64 },
    /// The members hold so many keys with a state, and a store takes 4,096. No line was read, and nothing was written. What was settled stands
    /// on the members' disks still.
    TooManyKeys { keys: u32 },
    /// The disk of this number is empty, though others are not: that of a member, or that of the vault of proposer 0. It is the least such
    /// number. No line was read, nothing was written, and each disk keeps what it held.
    LostDisk { disk: u8 },
    /// The age of the vault on the disk of this number is at its end. No line was read, and nothing was written. What was settled stands on the
    /// members' disks still.
    Spent { disk: u8 },
}

impl Status {
    /// The exit status.
    pub fn number(self) -> u8
        ensures { result ≡ number_of self }
    {
        match self {
            Status::Ok => 0,
            Status::Usage => 2,
            Status::ReadFault => 3,
            Status::WriteFault => 4,
            Status::NotEmpty { .. } => 5,
            Status::DiskFault { .. } => 6,
            Status::TooManyLines => 7,
            Status::NoMemory => 8,
            Status::Endless { .. } => 9,
            Status::Foreign { .. } => 10,
            Status::TooManyKeys { .. } => 11,
            Status::LostDisk { .. } => 12,
            Status::Spent { .. } => 13,
        }
    }
}

impl From<LineFault> for Status {
    ghost use Rattle.std.specs.Prelude.{◌≡◌};
    ghost use Rattle.casreg_command.specs.Status.{status_of_fault};

    ghost from_gives = { λ fault status. status ≡ status_of_fault fault };

    fn from(fault: LineFault) -> Status {
        match fault {
            LineFault::ReadFault => Status::ReadFault,
            LineFault::TooManyLines => Status::TooManyLines,
            LineFault::Endless { line } => Status::Endless { line },
            LineFault::NoMemory => Status::NoMemory,
        }
    }
}

/// Why a race did not end well.
impl From<RaceFault> for Status {
    ghost use Rattle.std.specs.Prelude.{◌≡◌, Err};
    ghost use Rattle.casreg_command.specs.Status.{status_of_race};

    ghost from_gives = { λ fault status. status ≡ status_of_race (Err fault) };

    fn from(fault: RaceFault) -> Status {
        match fault {
            RaceFault::NotRun(fault) => Status::from(fault),
            RaceFault::CutOff(HistoryFault::WriteFault) => Status::WriteFault,
            RaceFault::CutOff(HistoryFault::NoMemory) => Status::NoMemory,
        }
    }
}

/// Why an audit told nothing.
impl From<AuditFault> for Status {
    ghost use Rattle.std.specs.Prelude.{◌≡◌};
    ghost use Rattle.casreg_command.specs.Status.{status_of_audit};

    ghost from_gives = { λ fault status. status ≡ status_of_audit fault };

    fn from(fault: AuditFault) -> Status {
        match fault {
            AuditFault::ReadFault => Status::ReadFault,
            AuditFault::WriteFault => Status::WriteFault,
            AuditFault::TooManyLines => Status::TooManyLines,
            AuditFault::NoMemory => Status::NoMemory,
            AuditFault::Endless { line } => Status::Endless { line },
        }
    }
}

/// Why a record was not written whole.
impl From<MarksFault> for Status {
    ghost use Rattle.std.specs.Prelude.{◌≡◌};
    ghost use Rattle.casreg_command.specs.Status.{status_of_marks};

    ghost from_gives = { λ fault status. status ≡ status_of_marks fault };

    fn from(fault: MarksFault) -> Status {
        match fault {
            MarksFault::WriteFault => Status::WriteFault,
            MarksFault::NoMemory => Status::NoMemory,
        }
    }
}

/// Why the disks are not known to be empty.
impl From<RackFault> for Status {
    ghost use Rattle.std.specs.Prelude.{◌≡◌};
    ghost use Rattle.casreg_command.specs.Status.{status_of_rack};

    ghost from_gives = { λ fault status. status ≡ status_of_rack fault };

    fn from(fault: RackFault) -> Status {
        match fault {
            RackFault::NotEmpty { disk } => Status::NotEmpty { disk },
            RackFault::DiskFault { disk } => Status::DiskFault { disk },
            RackFault::NoMemory => Status::NoMemory,
        }
    }
}

/// Why a store was not opened over its disks.
impl From<ReopenFault> for Status {
    ghost use Rattle.std.specs.Prelude.{◌≡◌};
    ghost use Rattle.casreg_command.specs.Status.{status_of_reopening};

    ghost from_gives = { λ fault status. status ≡ status_of_reopening fault };

    fn from(fault: ReopenFault) -> Status {
        match fault {
            ReopenFault::LostDisk { disk } => Status::LostDisk { disk },
            ReopenFault::Foreign { disk, at } => Status::Foreign { disk, at },
            ReopenFault::TooManyKeys { keys } => Status::TooManyKeys { keys },
            ReopenFault::Spent { disk } => Status::Spent { disk },
            ReopenFault::DiskFault { disk } => Status::DiskFault { disk },
            ReopenFault::NoMemory => Status::NoMemory,
        }
    }
}

/// Why the store of a race was not opened.
impl From<OpenFault> for Status {
    ghost use Rattle.std.specs.Prelude.{◌≡◌};
    ghost use Rattle.casreg_command.specs.Status.{status_of_opening};

    ghost from_gives = { λ fault status. status ≡ status_of_opening fault };

    fn from(fault: OpenFault) -> Status {
        match fault {
            OpenFault::DiskFault { disk } => Status::DiskFault { disk },
            OpenFault::Foreign { disk, at: _ } => Status::NotEmpty { disk },
            OpenFault::Spent { disk } => Status::NotEmpty { disk },
            OpenFault::NoMemory => Status::NoMemory,
        }
    }
}

/// The failure of a sink.
impl From<Failed> for Status {
    ghost from_gives = { λ _ status. status ≡ WriteFault };

    fn from(_failed: Failed) -> Status {
        Status::WriteFault
    }
}

impl From<AllocError> for Status {
    ghost from_gives = { λ _ status. status ≡ NoMemory };

    fn from(_error: AllocError) -> Status {
        Status::NoMemory
    }
}
