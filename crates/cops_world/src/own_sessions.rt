//! A session in memory of its own.
ghost use Rattle.std.specs.Prelude.{◌≡◌, IfOk};

use cops_session::Session;
use std::alloc::{AllocError, Global};
use std::marker::Model;

/// A session outside the table of actors. A place of the table is as large as its largest
/// actor, and a session is more than twice as large as a carrier, which comes and goes for each entry.
/// Contracts see the session.
#[derive(Drop)]
pub struct OwnSession {
    pub(crate) session: Box<Session>,
}

impl Model for OwnSession {
    ghost use Rattle.cops_session.specs.Kept.{KeptSession};

    ghost Value = { KeptSession };

    ghost view = { λ o. o.session.value };
}

impl OwnSession {
    /// Moves a session into a block of memory. Fails with `AllocError` if memory runs out.
    pub(crate) fn new(alloc: Global, session: Session) -> Result<Self, AllocError>
        ensures { IfOk result (λ own. own ≡ session) }
    {
        let session = Box::new(alloc, session)?;
        Ok(OwnSession { session })
    }
}
