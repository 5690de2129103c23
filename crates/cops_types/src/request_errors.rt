ghost use Rattle.std.specs.Prelude.{◌≡◌};
ghost use Rattle.cops_types.specs.declared.request_errors.RequestError.TheVariants.{OutOfMemory, Refused};
ghost use Rattle.cops_types.specs.RequestErrors.{fault_told};

use crate::faults::Fault;
use std::alloc::{AllocError, AllocFailed};

/// The reason why a request failed.
#[derive(Clone, Copy, Debug, PartialEq, Eq)]
pub enum RequestError {
    /// It was refused.
    Refused(Fault),
    /// Memory ran out.
    OutOfMemory,
}

impl RequestError {
    /// Returns the fault that a reply to the client says. Nothing else makes `E23`.
    pub fn told(self) -> Fault
        ensures { result ≡ fault_told self }
    {
        match self {
            RequestError::Refused(fault) => fault,
            RequestError::OutOfMemory => Fault::OutOfMemory,
        }
    }
}

impl From<Fault> for RequestError {
    ghost from_gives = { λ fault error. error ≡ Refused fault };

    fn from(fault: Fault) -> RequestError {
        RequestError::Refused(fault)
    }
}

impl From<AllocError> for RequestError {
    ghost from_gives = { λ _ error. error ≡ OutOfMemory };

    fn from(_error: AllocError) -> RequestError {
        RequestError::OutOfMemory
    }
}

impl<T: Drop> From<AllocFailed<T>> for RequestError {
    ghost from_gives = { λ _ error. error ≡ OutOfMemory };

    fn from(failed: AllocFailed<T>) -> RequestError {
        let error: AllocError = failed.into();
        RequestError::from(error)
    }
}
