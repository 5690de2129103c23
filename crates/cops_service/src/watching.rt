//! The bytes of a client in the life of its tenant, and those that come after it.
ghost use Rattle.std.specs.Prelude.{◌≡◌, ◌⊎◌, ◌≤◌, Bool, [], None, true, false, drop, IfOk, IsErr, vec_capacity, vec_len};
ghost use Rattle.cops_service.specs.declared.watching.TheConstants.{PIECE};
ghost use Rattle.std.specs.Io.{ReadsAtMost};
ghost use Rattle.std.specs.Io.KnownBytes.{ReadConsumes, prepend_known};

use crate::residents::{Residents, Site};
use crate::roster::Life;
use std::alloc::{AllocError, Global};
use std::cell::Cell;
use std::io;
use std::io::{ErrorKind, Read};
use std::sync::Wait;

/// The most bytes of one read.
const PIECE: usize = 4096;

/// Tells whether the life of a tenant goes on.
pub(crate) trait Lasting {
    /// Relates a value, what it may say, and the value after it.
    ghost Says: { Self → Bool → Self → Type 0 };

    /// Returns `true` if the life goes on.
    fn goes_on(&mut self) -> bool
        ensures { Says self.old result self.new };
}

/// The life of a connection's tenant, if it has one. It goes on as long as the residents have it.
#[derive(Drop)]
pub(crate) struct Stay<'a, R, S: Site> {
    rt: &'a R,
    residents: &'a Residents<S>,
    life: Option<Life>,
    // The number of departures when the residents last had the life.
    departures: u64,
}

impl<'a, R, S: Site> Stay<'a, R, S> {
    /// Returns a life that no look has found yet.
    pub(crate) fn new(rt: &'a R, residents: &'a Residents<S>, life: Option<Life>) -> Stay<'a, R, S>
        ensures { result.life ≡ life }
    {
        Stay {
            rt,
            residents,
            life,
            departures: 0,
        }
    }
}

impl<R: Wait, S: Site> Lasting for Stay<'_, R, S> {
    ghost Says = { λ old goes_on new. (new.life ≡ old.life) × (old.life ≡ None → goes_on ≡ true) };

    fn goes_on(&mut self) -> bool {
        let Some(life) = self.life else {
            return true;
        };
        let departures = self.residents.departures();
        if departures == self.departures {
            return true;
        }
        let is_here = self.residents.have(self.rt, life);
        if is_here {
            self.departures = departures;
        }
        is_here
    }
}

/// A client's bytes. The first read that gets some after the end of a life keeps them and fails. Later reads give them, and then
/// all others.
#[derive(Drop)]
pub(crate) struct Watched<'a, I, L> {
    incoming: I,
    life: L,
    is_over: &'a Cell<bool>,
    // What the read that failed had got; so many of these bytes were given since.
    kept: Vec<u8>,
    given: usize,
    ghost within: { given ≤ vec_len kept },
    ghost room: { PIECE ≤ vec_capacity kept },
}

impl<'a, I: Read + Drop, L: Lasting + Drop> Watched<'a, I, L> {
    /// Returns a reader that sets the flag once the life is over. Fails with `AllocError` if memory runs out; reads allocate nothing.
    pub(crate) fn new(
        alloc: Global,
        incoming: I,
        life: L,
        is_over: &'a Cell<bool>,
    ) -> Result<Watched<'a, I, L>, AllocError>
        ensures incoming { IfOk result (λ watched. watched.incoming ≡ incoming) }
        ensures life { IfOk result (λ watched. watched.life ≡ life) }
        ensures kept { IfOk result (λ watched. watched.kept.items ≡ []) }
        ensures given { IfOk result (λ watched. watched.given ≡ 0) }
    {
        Ok(Watched {
            incoming,
            life,
            is_over,
            kept: Vec::with_capacity(alloc, PIECE)?,
            given: 0,
        })
    }
}

// Reads once, a piece at most.
fn read_piece<R: Read>(reader: &mut R, buf: &mut [u8]) -> io::Result<usize>
    ensures piece { IfOk result (λ count. count ≤ PIECE) }
    ensures bound { ReadsAtMost result buf.new }
    ensures bytes { ReadConsumes (R.remaining reader.old) (R.remaining reader.new) result buf.new }
{
    let most = buf.len().min(PIECE);
    reader.read(&mut buf[..most])
}

impl<I: Read, L: Lasting> Watched<'_, I, L> {
    // Reads, and keeps the bytes if the life is over.
    fn read_in_life(&mut self, buf: &mut [u8]) -> io::Result<usize>
        requires none { self.old.kept.items ≡ [] }
        ensures bound { ReadsAtMost result buf.new }
        ensures bytes { ReadConsumes
            (prepend_known (drop self.old.given self.old.kept.items)
            (I.remaining self.old.incoming))
            (prepend_known (drop self.new.given self.new.kept.items)
            (I.remaining self.new.incoming))
            result buf.new }
        ensures open { IfOk result
            (λ count. (count ≡ 0) ⊎ L.Says self.old.life true self.new.life) }
        ensures over { (self.new.kept.items ≡ [])
            ⊎ (IsErr result × L.Says self.old.life false self.new.life) }
    {
        let count = read_piece(&mut self.incoming, buf)?;
        if count == 0 || self.life.goes_on() {
            return Ok(count);
        }
        match self.kept.extend_from_slice(&buf[..count]) {
            Ok(()) => {
                self.is_over.set(true);
                Err(io::Error::from(ErrorKind::ConnectionAborted))
            }
            Err(_) => unreachable!(),
        }
    }

    // Gives the next of the bytes that were kept.
    fn give(&mut self, buf: &mut [u8]) -> io::Result<usize>
        ensures bound { ReadsAtMost result buf.new }
        ensures bytes { ReadConsumes
            (prepend_known (drop self.old.given self.old.kept.items)
            (I.remaining self.old.incoming))
            (prepend_known (drop self.new.given self.new.kept.items)
            (I.remaining self.new.incoming))
            result buf.new }
    {
        let mut rest = &self.kept.as_slice()[self.given..];
        if rest.is_empty() {
            return self.incoming.read(buf);
        }
        let count = rest.read(buf)?;
        self.given += count;
        Ok(count)
    }
}

impl<I: Read, L: Lasting> Read for Watched<'_, I, L> {
    ghost remaining = { λ watched. prepend_known (drop watched.given watched.kept.items) (I.remaining watched.incoming) };

    fn read(&mut self, buf: &mut [u8]) -> io::Result<usize>
        ensures bound { ReadsAtMost result buf.new }
        ensures bytes { ReadConsumes
            (prepend_known (drop self.old.given self.old.kept.items)
            (I.remaining self.old.incoming))
            (prepend_known (drop self.new.given self.new.kept.items)
            (I.remaining self.new.incoming))
            result buf.new }

        // While no bytes are kept, bytes are given only if the life goes on, and kept only if it doesn't.
        ensures open { self.old.kept.items ≡ [] → IfOk result (λ count. (count ≡ 0)
            ⊎ L.Says self.old.life true self.new.life) }
        ensures over { self.old.kept.items ≡ [] → (self.new.kept.items ≡ [])
            ⊎ (IsErr result × L.Says self.old.life false self.new.life) }
    {
        if self.kept.is_empty() {
            self.read_in_life(buf)
        } else {
            self.give(buf)
        }
    }
}
