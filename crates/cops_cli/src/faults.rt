//! The faults that the program ends with.
ghost use Rattle.std.specs.Prelude.{◌≡◌};
ghost use Rattle.cops_cli.specs.Faults.{RefusesWords, bad_head, ended_by, not_answered, not_extracted, not_migrated, not_replayed};
ghost use Rattle.cops_cli.specs.Statuses.{fault_status};
ghost use Rattle.cops_cli.specs.declared.faults.CliFault.TheVariants.{OutOfMemory};

use clap::error::ErrorKind;
use cops_replay::{MigrationRefusal, PartRefusal, ReplayRefusal};
use cops_script::{BadConfig, RunFault, SoloRefusal};
use cops_types::Fault;
use std::alloc::AllocError;
use thiserror::Error;

/// A fault, with the text for standard error.
#[derive(Debug, Drop, Error)]
pub(crate) enum CliFault {
    /// Clap refuses the words, or they ask for help or the version.
    #[error("{0}")]
    CommandLine(clap::Error),
    #[error("cops: a word of the command line isn't text\n")]
    NoText,
    /// This line of the head is bad, counted from 1.
    #[error("cops: configuration line {0}\n")]
    BadHead(u64),
    /// This line of an audit can't be migrated, counted from 1.
    #[error("cops: {0} line {1}\n")]
    BadLine(Fault, u64),
    #[error("cops: {}\n", Fault::UnknownTenant)]
    UnknownTenant,
    /// An audit of layout 1 has a clock of the tenant that is too great for layout 2.
    #[error("cops: {}\n", Fault::ClockTooGreat)]
    ClockTooGreat,
    #[error("cops: {}\n", Fault::OutOfMemory)]
    OutOfMemory,
    #[error("cops: {}\n", Fault::ReadFault)]
    ReadFault,
    #[error("cops: {}\n", Fault::WriteFault)]
    WriteFault,
}

impl CliFault {
    /// Returns the program's exit status.
    pub(crate) fn status(&self) -> u8
        ensures { result ≡ fault_status self.now }
    {
        match self {
            CliFault::CommandLine(_) | CliFault::NoText => 2,
            CliFault::BadHead(_) | CliFault::UnknownTenant => 2,
            CliFault::BadLine(_, _) => 2,
            CliFault::ClockTooGreat => 2,
            CliFault::OutOfMemory | CliFault::ReadFault | CliFault::WriteFault => 1,
        }
    }
}

impl From<RunFault<BadConfig>> for CliFault {
    ghost from_gives = { λ fault ended. ended ≡ ended_by bad_head fault };

    fn from(fault: RunFault<BadConfig>) -> CliFault {
        match fault {
            RunFault::Refused(bad) => CliFault::BadHead(bad.line),
            RunFault::OutOfMemory => CliFault::OutOfMemory,
            RunFault::ReadFault => CliFault::ReadFault,
            RunFault::WriteFault => CliFault::WriteFault,
        }
    }
}

impl From<RunFault<SoloRefusal>> for CliFault {
    ghost from_gives = { λ fault ended. ended ≡ ended_by not_answered fault };

    fn from(fault: RunFault<SoloRefusal>) -> CliFault {
        match fault {
            RunFault::Refused(SoloRefusal::BadConfig(bad)) => CliFault::BadHead(bad.line),
            RunFault::Refused(SoloRefusal::UnknownTenant) => CliFault::UnknownTenant,
            RunFault::OutOfMemory => CliFault::OutOfMemory,
            RunFault::ReadFault => CliFault::ReadFault,
            RunFault::WriteFault => CliFault::WriteFault,
        }
    }
}

impl From<RunFault<ReplayRefusal>> for CliFault {
    ghost from_gives = { λ fault ended. ended ≡ ended_by not_replayed fault };

    fn from(fault: RunFault<ReplayRefusal>) -> CliFault {
        match fault {
            RunFault::Refused(ReplayRefusal::BadConfig(bad)) => CliFault::BadHead(bad.line),
            RunFault::Refused(ReplayRefusal::UnknownTenant) => CliFault::UnknownTenant,
            RunFault::Refused(ReplayRefusal::ClockTooGreat) => CliFault::ClockTooGreat,
            RunFault::OutOfMemory => CliFault::OutOfMemory,
            RunFault::ReadFault => CliFault::ReadFault,
            RunFault::WriteFault => CliFault::WriteFault,
        }
    }
}

impl From<RunFault<PartRefusal>> for CliFault {
    ghost from_gives = { λ fault ended. ended ≡ ended_by not_extracted fault };

    fn from(fault: RunFault<PartRefusal>) -> CliFault {
        match fault {
            RunFault::Refused(PartRefusal::BadConfig(bad)) => CliFault::BadHead(bad.line),
            RunFault::Refused(PartRefusal::UnknownTenant) => CliFault::UnknownTenant,
            RunFault::OutOfMemory => CliFault::OutOfMemory,
            RunFault::ReadFault => CliFault::ReadFault,
            RunFault::WriteFault => CliFault::WriteFault,
        }
    }
}

impl From<RunFault<MigrationRefusal>> for CliFault {
    ghost from_gives = { λ fault ended. ended ≡ ended_by not_migrated fault };

    fn from(fault: RunFault<MigrationRefusal>) -> CliFault {
        match fault {
            RunFault::Refused(MigrationRefusal::BadConfig(bad)) => CliFault::BadHead(bad.line),
            RunFault::Refused(MigrationRefusal::BadLine(bad)) => {
                CliFault::BadLine(bad.fault, bad.line)
            }
            RunFault::OutOfMemory => CliFault::OutOfMemory,
            RunFault::ReadFault => CliFault::ReadFault,
            RunFault::WriteFault => CliFault::WriteFault,
        }
    }
}

impl From<AllocError> for CliFault {
    ghost from_gives = { λ _ fault. fault ≡ OutOfMemory };

    fn from(_error: AllocError) -> CliFault {
        CliFault::OutOfMemory
    }
}

impl From<clap::Error> for CliFault {
    ghost from_gives = { RefusesWords };

    fn from(error: clap::Error) -> CliFault {
        match error.kind() {
            ErrorKind::OutOfMemory => CliFault::OutOfMemory,
            _ => CliFault::CommandLine(error),
        }
    }
}
