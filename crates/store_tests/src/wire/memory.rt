//! Each allocation may fail: the same call again is as if it had not failed, and the bytes written
//! are a prefix of the replies. Run with the Nth allocation failing, for each N.
use super::exchanges::{CLIENT, REFUSALS, REQUESTS, SERVER, bytes_of, exchange, refuse};
use crate::slate::Slate;
use cops_types::{Fault, RequestError};
use cops_wire::{Decoder, Ended, Message, encode};
use std::process::Abort;

/// Returns how many messages a piece gives. It is fed again if memory ran out.
fn messages_of(rt: &impl Abort, decoder: &mut Decoder, piece: &[u8]) -> usize {
    let pending = decoder.pending();
    if let Ok(fed) = decoder.feed(piece) {
        return fed.messages.len();
    }
    assert_eq!(rt; decoder.pending(), pending);
    match decoder.feed(piece) {
        Ok(fed) => fed.messages.len(),
        Err(_) => panic!(rt; "memory"),
    }
}

#[test]
fn refused_memory_leaves_the_decoder(rt: HostRuntime) {
    let client = bytes_of(&rt, rt.alloc(), CLIENT);
    let mut decoder = Decoder::new(rt.alloc());
    let (first, others) = client.as_slice().split_at(client.len().min(30));
    assert_eq!(rt; messages_of(&rt, &mut decoder, first), 2);
    assert_eq!(rt; messages_of(&rt, &mut decoder, others), 4);
    assert_eq!(rt; decoder.pending(), 0);
}

#[test]
fn refused_memory_puts_no_message(rt: HostRuntime) {
    let mut out = Vec::new(rt.alloc());
    if encode(&Message::Ready, &mut out).is_err() {
        assert_eq!(rt; out.len(), 0);
        encode(&Message::Ready, &mut out).expect(&rt, "memory");
    }
    assert_eq!(rt; out.as_slice(), [0, 0, 0, 1, 129].as_slice());
}

/// Returns `true` if some reply is out of memory.
fn tells_of_memory(replies: &[u8]) -> bool {
    for place in 0..replies.len() {
        if replies[place..].starts_with(&[0, 0, 0, 2, 255, 23]) {
            return true;
        }
    }
    false
}

#[test]
fn refused_memory_leaves_a_front(rt: HostRuntime) {
    let client = bytes_of(&rt, rt.alloc(), CLIENT);
    let server = bytes_of(&rt, rt.alloc(), SERVER);
    let (end, slate) = exchange(&rt, rt.alloc(), client.as_slice(), Slate::new());
    let replies = slate.written();
    assert!(&rt; matches!(end, Ok(Ended::Clean) | Err(RequestError::OutOfMemory)));
    assert!(&rt; tells_of_memory(replies) || server.as_slice().starts_with(replies));
    assert!(&rt; end.is_err() || tells_of_memory(replies) || replies.len() == server.len());
}

#[test]
fn refused_memory_refuses_a_prefix(rt: HostRuntime) {
    let client = bytes_of(&rt, rt.alloc(), REQUESTS);
    let server = bytes_of(&rt, rt.alloc(), REFUSALS);
    let fault = Fault::UnknownTenant;
    let (end, slate) = refuse(rt.alloc(), client.as_slice(), Slate::new(), fault);
    let replies = slate.written();
    assert!(&rt; matches!(end, Ok(Ended::Clean) | Err(RequestError::OutOfMemory)));
    assert!(&rt; server.as_slice().starts_with(replies));
    assert!(&rt; end.is_err() || replies.len() == server.len());
}
