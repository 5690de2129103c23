//! Lines of the host, from the thread that reads them to the one that follows them.
ghost use Rattle.std.specs.Prelude.{◌≡◌, ◌<◌, ◌≤◌, ◌↔◌, ◌++◌, ◌∷◌, [], IfErr, IfOk, IsTrue};
ghost use Rattle.std.specs.Vec.{vec_capacity, vec_len};

use crate::replies::Replies;
use cops_types::{Name, Tenant};
use std::alloc::{AllocError, Global};
use std::mem;
use std::sync::{Condvar, Mutex, Wait};

/// The most lines that wait. A further line is given back.
const MOST_WAITING: usize = 64;

/// The meaning of a line of the host.
#[derive(Clone, Copy, Debug)]
pub enum HostLine {
    /// Admits a tenant.
    Admit(Tenant),
    /// Closes the tenant of this name.
    Close(Name),
    /// Has no form.
    Unknown,
    /// Asks for the end of the service.
    End,
}

#[derive(Drop)]
struct Waiting {
    lines: Vec<HostLine>,
    is_over: bool,
}

impl Waiting {
    fn is_full(&self) -> bool
        ensures { IsTrue result ↔ (vec_capacity self.now.lines ≤ vec_len self.now.lines) }
    {
        self.lines.len() >= self.lines.capacity()
    }

    // Adds a line, if there is room.
    fn push(&mut self, line: HostLine)
        ensures added { vec_len self.old.lines < vec_capacity self.old.lines →
            self.new.lines.items ≡ self.old.lines.items ++ line ∷ [] }
        ensures full { vec_capacity self.old.lines ≤ vec_len self.old.lines →
            self.new.lines.items ≡ self.old.lines.items }
        ensures over { self.new.is_over ≡ self.old.is_over }
    {
        if self.lines.len() < self.lines.capacity() {
            self.lines.push_reserved(line);
        }
    }
}

/// Lines that are followed together, and the replies to them.
#[derive(Drop)]
pub(crate) struct Batch {
    pub(crate) lines: Vec<HostLine>,
    pub(crate) replies: Replies,
}

/// Lines of the host that wait to be followed, in order.
#[derive(Drop)]
pub struct HostLines {
    waiting: Mutex<Waiting>,
    changed: Condvar,
}

impl HostLines {
    /// Returns an empty list. Fails with `AllocError` if memory runs out.
    pub fn new(alloc: Global) -> Result<Self, AllocError> {
        let lines = Vec::with_capacity(alloc, MOST_WAITING)?;
        Ok(HostLines {
            waiting: Mutex::new(Waiting {
                lines,
                is_over: false,
            }),
            changed: Condvar::new(),
        })
    }

    /// Hands a line of standard input on to the service's host, and never waits. Gives the line back if there is no room for it
    /// now, or another thread uses the list: offer it again a little later. A line that comes after the service is ignored.
    pub fn offer(&self, line: HostLine) -> Result<(), HostLine>
        ensures { IfErr result (λ back. back ≡ line) }
    {
        let Some(mut waiting) = self.waiting.try_lock() else {
            return Err(line);
        };
        if waiting.is_over {
            return Ok(());
        }
        if waiting.is_full() {
            return Err(line);
        }
        waiting.push(line);
        drop(waiting);
        self.changed.notify_all();
        Ok(())
    }

    /// Waits for lines, and moves all of them into this empty list. Returns `false` if none will follow.
    pub(crate) fn take<R: Wait>(&self, rt: &R, taken: &mut Vec<HostLine>) -> bool {
        let locked = self.waiting.lock(rt);
        let mut waiting = self.changed.wait_while(rt, locked, |waiting| {
            waiting.lines.is_empty() && !waiting.is_over
        });
        mem::swap(&mut waiting.lines, taken);
        let goes_on = !waiting.is_over;
        drop(waiting);
        self.changed.notify_all();
        goes_on
    }

    /// Returns an empty batch with room for all lines that may wait.
    pub(crate) fn room(&self, alloc: Global) -> Result<Batch, AllocError>
        ensures empty { IfOk result (λ room. room.lines.items ≡ []) }
        ensures room { IfOk result (λ room. MOST_WAITING ≤ vec_capacity room.lines) }
        ensures replies { IfOk result (λ room. room.replies.kept.items ≡ []) }
    {
        Ok(Batch {
            lines: Vec::with_capacity(alloc, MOST_WAITING)?,
            replies: Replies::new(alloc)?,
        })
    }

    /// Ends the wait of the thread that takes lines. Lines that come later are ignored.
    pub(crate) fn end<R: Wait>(&self, rt: &R) {
        self.waiting.lock(rt).is_over = true;
        self.changed.notify_all();
    }
}
