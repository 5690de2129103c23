//! Connections whose requests are all refused.
use super::exchanges::{assert_bytes, bytes_of, refuse};
use crate::one_tenant::one_node;
use cops_types::{Fault, RequestError, Sink, Source};
use cops_wire::{Connection, Ended};
use std::alloc::Global;
use std::io::{self, ErrorKind, Read};
use std::process::Abort;

/// The requests that a client sends get these bytes for replies, and the connection ends so.
fn assert_refusals(
    rt: &impl Abort,
    alloc: Global,
    client: &str,
    fault: Fault,
    ended: Ended,
    server: &str,
) {
    let client = bytes_of(rt, alloc, client);
    let (end, replies) = refuse(alloc, client.as_slice(), Vec::new(alloc), fault);
    match end {
        Ok(end) => assert!(rt; end == ended),
        Err(_) => panic!(rt; "refusing"),
    }
    assert_bytes(rt, alloc, replies.as_slice(), server);
}

#[test]
fn two_requests_are_refused(rt: HostRuntime) {
    let client = "00000001 02 0000000d 05 43 0000000000000001 01 01 78";
    let server = "00000002 ff 05 00000002 ff 05";
    assert_refusals(&rt, rt.alloc(), client, Fault::Busy, Ended::Clean, server);
}

#[test]
fn nothing_is_refused_where_nothing_comes(rt: HostRuntime) {
    assert_refusals(&rt, rt.alloc(), "", Fault::Busy, Ended::Clean, "");
}

/// After a request these bytes tear the connection.
fn assert_refusal_torn(rt: &impl Abort, alloc: Global, frame: &str) {
    let mut client = bytes_of(rt, alloc, "00000001 02");
    let frame = bytes_of(rt, alloc, frame);
    client
        .extend_from_slice(frame.as_slice())
        .expect(rt, "memory");
    let (end, replies) = refuse(alloc, client.as_slice(), Vec::new(alloc), Fault::Busy);
    assert!(rt; matches!(end, Ok(Ended::Torn)));
    let server = "00000002 ff 05 00000002 ff 01";
    assert_bytes(rt, alloc, replies.as_slice(), server);
}

#[test]
fn refusals_end_inside_a_frame(rt: HostRuntime) {
    assert_refusal_torn(&rt, rt.alloc(), "0000000d 05 43");
}

#[test]
fn refusals_end_at_a_greeting(rt: HostRuntime) {
    let greeting = "00000012 07 00000000000000000000000000000001 00";
    assert_refusal_torn(&rt, rt.alloc(), greeting);
}

/// Gives the first bytes, fails once, and gives the others.
#[derive(Drop)]
struct Stumbling<'a> {
    first: &'a [u8],
    has_failed: bool,
    others: &'a [u8],
}

impl Read for Stumbling<'_> {
    fn read(&mut self, buf: &mut [u8]) -> io::Result<usize> {
        if !self.first.is_empty() {
            return self.first.read(buf);
        }
        if !self.has_failed {
            self.has_failed = true;
            return Err(io::Error::from(ErrorKind::Other));
        }
        self.others.read(buf)
    }
}

/// Greets a client, refuses its requests up to a failing read, and then the others. Returns how that ended and the replies.
fn refuse_twice(
    rt: &impl Abort,
    alloc: Global,
    reader: Stumbling<'_>,
) -> (Result<Ended, RequestError>, Vec<u8>) {
    let config = one_node(rt, alloc);
    let sink = Sink::new(Vec::new(alloc));
    let mut connection = Connection::new(alloc, Source::new(reader), sink);
    let greeted = connection.greet(&config.tenants, config.data_centres);
    assert!(rt; matches!(greeted, Ok((0, 0))));
    let failed = connection.refuse_requests(Fault::UnknownTenant);
    assert!(rt; matches!(failed, Err(RequestError::Refused(Fault::ReadFault))));
    let ended = connection.refuse_requests(Fault::UnknownTenant);
    let (_, sink) = connection.into_inner();
    (ended, sink.into_inner())
}

#[test]
fn a_cut_frame_is_refused_with_its_rest(rt: HostRuntime) {
    let alloc = rt.alloc();
    let first = bytes_of(
        &rt,
        alloc,
        "00000012 07 00000000000000000000000000000001 00 00000001 02 00000010 04 43 00",
    );
    let others = bytes_of(&rt, alloc, "00000000000001 01 78 0002 3130 00000001 02");
    let reader = Stumbling {
        first: first.as_slice(),
        has_failed: false,
        others: others.as_slice(),
    };
    let (end, replies) = refuse_twice(&rt, alloc, reader);
    assert!(&rt; matches!(end, Ok(Ended::Clean)));
    let server = "00000001 81 00000002 ff 02 00000002 ff 02 00000002 ff 02";
    assert_bytes(&rt, alloc, replies.as_slice(), server);
}
