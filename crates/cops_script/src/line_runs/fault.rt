//! Why a run ends early.
ghost use Rattle.std.specs.Prelude.{◌≡◌};
ghost use Rattle.cops_script.specs.RunFaults.{fault_of};
ghost use Rattle.cops_script.specs.declared.line_runs.fault.RunFault.TheVariants.{OutOfMemory};

use crate::line_runs::machine::Stop;
use std::alloc::AllocError;

/// Why a run ends before the end of its input, or before all is written.
#[derive(Clone, Copy, Debug, PartialEq, Eq)]
pub enum RunFault<F> {
    /// The machine refused to go on.
    Refused(F),
    OutOfMemory,
    /// The reader failed, or the turns are used up.
    ReadFault,
    WriteFault,
}

impl<F> From<Stop<F>> for RunFault<F> {
    ghost from_gives = { λ stop fault. fault ≡ fault_of stop };

    fn from(stop: Stop<F>) -> RunFault<F> {
        match stop {
            Stop::Refused(refusal) => RunFault::Refused(refusal),
            Stop::OutOfMemory => RunFault::OutOfMemory,
        }
    }
}

impl<F> From<AllocError> for RunFault<F> {
    ghost from_gives = { λ _ fault. fault ≡ OutOfMemory };

    fn from(_error: AllocError) -> RunFault<F> {
        RunFault::OutOfMemory
    }
}
