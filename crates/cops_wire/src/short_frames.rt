//! Appends short frames of puts and get transactions to a vector, and reserves once.
ghost use Rattle.std.specs.Prelude.{◌≡◌, ◌≤◌, ◌<◌, ◌+◌, ◌-◌, ◌^◌, ℕ, List, ◌∷◌, ◌++◌, length, take, IfOk, IfSome, MatchBool, OnErr, OnOk};
ghost use Rattle.cops_wire.specs.Fitting.{CanBeWritten, IsCounted, PartsFit};
ghost use Rattle.cops_wire.specs.Spelling.{body_of, spelled_text, spelling};
ghost use Rattle.cops_wire.specs.declared.messages.Message.{Message};

use crate::messages::Message;
use crate::placed::{put_head, put_keys, put_value};
use byteorder::{BigEndian, ByteOrder};
use cops_types::Bytes;
use cops_types::placed::put_bytes;
use std::alloc::AllocError;

/// The most bytes of a short frame.
const SHORT_FRAME: usize = 128;

/// The most bytes of a put's frame for which less room is cleared.
const SHORTER_FRAME: usize = 64;

/// Writes the frame of a put.
#[inline(always)]
fn put_put(bytes: &mut [u8], at: usize, handle: &[u8; 9], key: &[u8], value: &[u8]) -> usize
    requires key { IsCounted 1 key.now }
    requires value { IsCounted 2 value.now }
    requires room { at + 17 + length key.now + length value.now ≤ length bytes.old }
    ensures text { take result bytes.new ≡ take at bytes.old
        ++ spelling (Message.Put handle.now key.now value.now) }
    ensures end { result ≡ at + 17 + length key.now + length value.now }
{
    let len = (13 + key.len() + value.len()) as u32;
    let of_key = put_head(bytes, at, len, 0x04, handle, key.len() as u8);
    let of_value = put_bytes(bytes, of_key, key);
    put_value(bytes, of_value, value)
}

/// Writes a placeholder for a length, and the body of a get transaction, or finds that there is no room for its keys.
#[inline(always)]
fn put_get(bytes: &mut [u8], at: usize, handle: &[u8; 9], keys: &[Bytes]) -> Option<usize>
    requires counted { PartsFit 1 (IsCounted 1) keys.now }
    requires room { at + 15 ≤ length bytes.old }
    ensures text { IfSome result (λ end. take end bytes.new
        ≡ take at bytes.old ++ (0 ∷ 0 ∷ 0 ∷ 0 ∷ body_of (Message.GetTrans handle.now keys.now))) }
    ensures within { IfSome result (λ end. (at + 15 ≤ end) × (end ≤ length bytes.old)) }
    ensures front { take at bytes.new ≡ take at bytes.old }
{
    let of_keys = put_head(bytes, at, 0, 0x05, handle, keys.len() as u8);
    put_keys(bytes, of_keys, keys)
}

/// Cuts off the bytes after a frame, and writes its length over the placeholder.
#[inline(always)]
fn end_frame(out: &mut Vec<u8>, start: usize, end: usize)
    requires start { start + 4 ≤ end }
    requires end { end ≤ length out.old.items }
    requires size { end - start < 2 ^ 32 }
    ensures { (front body : List ℕ) → length front ≡ start →
        take end out.old.items ≡ front ++ (0 ∷ 0 ∷ 0 ∷ 0 ∷ body) →
        out.new.items ≡ front ++ spelled_text 4 body }
{
    out.truncate(end);
    let len = (end - start - 4) as u32;
    BigEndian::write_u32(&mut out[start..], len);
}

/// Appends the frame of a put, and reserves this many bytes once. On `Err` nothing is appended.
#[inline(always)]
fn push_put_within<const ROOM: usize>(
    out: &mut Vec<u8>,
    handle: &[u8; 9],
    key: &[u8],
    value: &[u8],
) -> Result<(), AllocError>
    requires key { IsCounted 1 key.now }
    requires value { IsCounted 2 value.now }
    requires room { 17 + length key.now + length value.now ≤ ROOM }
    requires few { ROOM ≤ SHORT_FRAME }
    ensures ok { OnOk result (out.new.items ≡ out.old.items
        ++ spelling (Message.Put handle.now key.now value.now)) }
    ensures err { OnErr result (out.new.items ≡ out.old.items) }
{
    let start = out.len();
    out.extend_from_slice(&[0; ROOM])?;
    let end = put_put(out.as_mut_slice(), start, handle, key, value);
    out.truncate(end);
    Ok(())
}

/// Appends the frame of a put if it is short, and returns whether it is.
fn push_short_put(
    out: &mut Vec<u8>,
    handle: &[u8; 9],
    key: &[u8],
    value: &[u8],
) -> Result<bool, AllocError>
    requires key { IsCounted 1 key.now }
    requires value { IsCounted 2 value.now }
    ensures ok { IfOk result (λ short. MatchBool short
        (out.new.items ≡ out.old.items ++ spelling (Message.Put handle.now key.now value.now))
        (out.new.items ≡ out.old.items)) }
    ensures err { OnErr result (out.new.items ≡ out.old.items) }
{
    let size = 17 + key.len() + value.len();
    if size > SHORT_FRAME {
        return Ok(false);
    }
    if size > SHORTER_FRAME {
        push_put_within::<SHORT_FRAME>(out, handle, key, value)?;
    } else {
        push_put_within::<SHORTER_FRAME>(out, handle, key, value)?;
    }
    Ok(true)
}

/// Appends the frame of a get transaction if it is short, and returns whether it is.
fn push_short_get(out: &mut Vec<u8>, handle: &[u8; 9], keys: &[Bytes]) -> Result<bool, AllocError>
    requires { PartsFit 1 (IsCounted 1) keys.now }
    ensures ok { IfOk result (λ short. MatchBool short
        (out.new.items ≡ out.old.items ++ spelling (Message.GetTrans handle.now keys.now))
        (out.new.items ≡ out.old.items)) }
    ensures err { OnErr result (out.new.items ≡ out.old.items) }
{
    let start = out.len();
    out.extend_from_slice(&[0; SHORT_FRAME])?;
    let Some(end) = put_get(out.as_mut_slice(), start, handle, keys) else {
        out.truncate(start);
        return Ok(false);
    };
    end_frame(out, start, end);
    Ok(true)
}

/// Appends the frame of a put or a get transaction if it is short, and returns whether it is.
pub(crate) fn push_short(out: &mut Vec<u8>, message: &Message) -> Result<bool, AllocError>
    requires { CanBeWritten message.now }
    ensures ok { IfOk result (λ short. MatchBool short
        (out.new.items ≡ out.old.items ++ spelling message.now) (out.new.items ≡ out.old.items)) }
    ensures err { OnErr result (out.new.items ≡ out.old.items) }
{
    match message {
        Message::Put(handle, key, value) => {
            push_short_put(out, handle, key.as_slice(), value.as_slice())
        }
        Message::GetTrans(handle, keys) => push_short_get(out, handle, keys.as_slice()),
        _ => Ok(false),
    }
}
