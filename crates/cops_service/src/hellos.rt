//! The first bytes of a connection, which are read before its tenant is looked up.
ghost use Rattle.std.specs.Prelude.{◌≡◌, ◌≤◌, ◌⊎◌, IfErr, IfOk};
ghost use Rattle.cops_types.specs.declared.faults.Fault.TheVariants.{ReadFault};
ghost use Rattle.cops_types.specs.declared.request_errors.RequestError.TheVariants.{OutOfMemory, Refused};
ghost use Rattle.cops_wire.specs.Streams.{split_of};
ghost use Rattle.cops_service.specs.Hellos.{first_token};

use crate::lines::{Incoming, Line};
use cops_types::{Fault, RequestError};
use cops_wire::{Decoder, Message};
use std::alloc::Global;
use std::io::Read;
use std::time::Clock;

/// The bytes of a frame with a Hello: its length, a tag, a token and a data centre.
const HELLO: usize = 22;

/// The first bytes of a connection, and the token if they are a Hello.
#[derive(Drop)]
pub(crate) struct Opened {
    pub(crate) bytes: Vec<u8>,
    pub(crate) token: Option<[u8; 16]>,
}

// Reads once, and returns the number of bytes; 0 at the end of the input.
fn read_some<R: Read>(reader: &mut R, piece: &mut [u8; HELLO]) -> Result<usize, RequestError>
    ensures count { IfOk result (λ count. count ≤ HELLO) }
    ensures failed { IfErr result (λ error. error ≡ Refused ReadFault) }
{
    match reader.read(piece) {
        Ok(count) => Ok(count),
        Err(_) => Err(RequestError::Refused(Fault::ReadFault)),
    }
}

// Returns the token of a Hello that comes first.
fn token_in(messages: &[Message]) -> Option<[u8; 16]>
    ensures { result ≡ first_token messages.now }
{
    match messages.first() {
        Some(Message::Hello(token, _)) => Some(*token),
        _ => None,
    }
}

/// Reads until a connection's first message is there, or as many bytes as a Hello has. A longer message is no Hello. The
/// token is that of the bytes.
pub(crate) fn open_line<C: Clock>(alloc: Global, line: &Line<'_, C>) -> Result<Opened, RequestError>
    ensures token { IfOk result
        (λ opened. opened.token ≡ first_token (split_of opened.bytes.items).messages) }
    ensures failed { IfErr result (λ error. (error ≡ OutOfMemory) ⊎ (error ≡ Refused ReadFault)) }
{
    let mut incoming = Incoming { line };
    let mut decoder = Decoder::new(alloc);
    let mut bytes = Vec::new(alloc);
    let mut piece = [0u8; HELLO];
    for _ in 0..HELLO {
        let count = read_some(&mut incoming, &mut piece)?;
        bytes.extend_from_slice(&piece[..count])?;
        let fed = decoder.feed(&piece[..count])?;
        if count == 0 || fed.broken || !fed.messages.is_empty() || bytes.len() >= HELLO {
            return Ok(Opened {
                bytes,
                token: token_in(fed.messages.as_slice()),
            });
        }
    }
    Ok(Opened { bytes, token: None })
}
