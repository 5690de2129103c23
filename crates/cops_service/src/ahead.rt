//! Reserves memory from the system ahead of use.
//!
//! The C library grows the heap of each thread but the first by single pages. Each page takes a system call, during which
//! all threads that touch a new page wait. Allocating and freeing a large block grows the heap by the whole block at once.
//! Its pages aren't touched, so resident memory stays the same.
ghost use Rattle.std.specs.Prelude.{◌≡◌, ◌-◌, ◌<◌};

use std::alloc::Global;

// A thread reserves memory once in this many node calls.
const CALLS: u32 = 1024;

// The bytes that it reserves: about what that many puts of small values keep.
const BYTES: usize = 512 * 1024;

/// Counts a thread's node calls, and reserves memory at intervals.
#[derive(Drop)]
pub(crate) struct Ahead {
    alloc: Global,
    left: u32,
}

impl Ahead {
    /// Returns a counter that reserves at the first call.
    pub(crate) fn new(alloc: Global) -> Ahead
        ensures { result.left ≡ 0 }
    {
        Ahead { alloc, left: 0 }
    }

    /// Counts a call. Ignores a failed reservation: the call that needs memory asks for it again.
    #[inline(always)]
    pub(crate) fn count(&mut self)
        ensures reserves { self.old.left ≡ 0 → self.new.left ≡ CALLS - 1 }
        ensures counts { 0 < self.old.left → self.new.left ≡ self.old.left - 1 }
    {
        if self.left == 0 {
            ask(self.alloc);
            self.left = CALLS;
        }
        self.left -= 1;
    }
}

// Allocates a block and frees it.
#[cold]
#[inline(never)]
fn ask(alloc: Global) {
    let _ = Vec::<u8>::with_capacity(alloc, BYTES);
}
