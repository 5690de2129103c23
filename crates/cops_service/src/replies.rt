//! Replies to lines of the host, which are reported once all lines that came together are followed.
ghost use Rattle.std.specs.Prelude.{◌≡◌, ◌<◌, ◌≤◌, ◌++◌, ◌∷◌, [], IfOk};
ghost use Rattle.std.specs.Vec.{vec_capacity, vec_len};

use crate::reports::HostReports;
use cops_model::HostReply;
use std::alloc::{AllocError, Global};

/// The most replies that wait to be reported.
const MOST_KEPT: usize = 64;

/// Replies that wait to be reported, in the order of the lines.
#[derive(Drop)]
pub(crate) struct Replies {
    pub(crate) kept: Vec<HostReply>,
    ghost room: { 0 < vec_capacity kept },
}

impl Replies {
    /// Returns an empty list. Fails with `AllocError` if memory runs out.
    pub(crate) fn new(alloc: Global) -> Result<Self, AllocError>
        ensures { IfOk result (λ replies. replies.kept.items ≡ []) }
    {
        Ok(Replies {
            kept: Vec::with_capacity(alloc, MOST_KEPT)?,
        })
    }

    /// Adds a reply. If there is no room for it, those before it are reported first.
    pub(crate) fn keep<L: HostReports>(&mut self, reports: &L, reply: HostReply)
        ensures added { vec_len self.old.kept < vec_capacity self.old.kept →
            self.new.kept.items ≡ self.old.kept.items ++ reply ∷ [] }
        ensures full { vec_capacity self.old.kept ≤ vec_len self.old.kept →
            self.new.kept.items ≡ reply ∷ [] }
    {
        if self.kept.len() >= self.kept.capacity() {
            self.report(reports);
        }
        self.kept.push_reserved(reply);
    }

    /// Reports the replies, if there are any, and clears the list.
    pub(crate) fn report<L: HostReports>(&mut self, reports: &L)
        ensures { self.new.kept.items ≡ [] }
    {
        if self.kept.is_empty() {
            return;
        }
        reports.told(self.kept.as_slice());
        self.kept.clear();
    }
}
