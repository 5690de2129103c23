//! Connections to a cluster of one node, in hexadecimal digits.
ghost use Rattle.std.specs.Prelude.{◌≡◌};

use crate::one_tenant::{one_node, session};
use cops_node::Cluster0;
use cops_types::{Fault, RequestError, Sink, Source};
use cops_wire::{Connection, Ended, Moments};
use std::alloc::Global;
use std::io::{Read, Write};
use std::process::Abort;

/// A client greets, creates a context, puts, gets, deletes the context, and gets again.
pub(crate) const CLIENT: &str = "00000012 07 00000000000000000000000000000001 00
    00000001 02
    00000010 04 43 0000000000000001 01 78 0002 3130
    0000000d 05 43 0000000000000001 01 01 78
    0000000a 03 43 0000000000000001
    0000000d 05 43 0000000000000001 01 01 78";

/// The answer to it.
pub(crate) const SERVER: &str = "00000001 81
    0000000a 82 43 0000000000000001
    0000000b 84 01 78 0000000000010000
    00000013 85 01 01 78 01 0002 3130 0000000000010000 0000
    00000001 83
    00000002 ff 07";

/// A client creates a context, puts, gets, deletes the context, and gets again.
pub(crate) const REQUESTS: &str = "00000001 02
    00000010 04 43 0000000000000001 01 78 0002 3130
    0000000d 05 43 0000000000000001 01 01 78
    0000000a 03 43 0000000000000001
    0000000d 05 43 0000000000000001 01 01 78";

/// Its refusals, if its tenant is unknown.
pub(crate) const REFUSALS: &str = "00000002 ff 02
    00000002 ff 02
    00000002 ff 02
    00000002 ff 02
    00000002 ff 02";

/// A clock that stands still.
#[derive(Drop)]
pub(crate) struct Still {
    pub moment: u64,
}

impl Moments for Still {
    ghost Gives = { λ old given new. (given ≡ old.moment) × (new ≡ old) };

    fn now(&mut self) -> u64 {
        self.moment
    }
}

/// The value of a hexadecimal digit.
fn digit_of(byte: u8) -> Option<u8> {
    match byte {
        b'0'..=b'9' => Some(byte - b'0'),
        b'a'..=b'f' => Some(byte - b'a' + 10),
        _ => None,
    }
}

/// The bytes that pairs of hexadecimal digits write. What is no digit stands between them.
pub(crate) fn bytes_of(rt: &impl Abort, alloc: Global, text: &str) -> Vec<u8> {
    let mut bytes = Vec::with_capacity(alloc, text.len()).expect(rt, "memory");
    let mut high = None;
    for byte in text.as_bytes() {
        if let Some(digit) = digit_of(*byte) {
            match high {
                None => high = Some(digit),
                Some(first) => {
                    bytes.push((first << 4) | digit).expect(rt, "memory");
                    high = None;
                }
            }
        }
    }
    bytes
}

/// The bytes are those that the digits write.
pub(crate) fn assert_bytes(rt: &impl Abort, alloc: Global, bytes: &[u8], digits: &str) {
    assert_eq!(rt; bytes, bytes_of(rt, alloc, digits).as_slice());
}

/// Serves what a client sends, and gives how that ended and the writer.
pub(crate) fn exchange<R: Read + Drop, W: Write>(
    rt: &impl Abort,
    alloc: Global,
    reader: R,
    writer: W,
) -> (Result<Ended, RequestError>, W) {
    let config = one_node(rt, alloc);
    let mut nodes = Cluster0::new(alloc, &config).expect(rt, "memory");
    let mut session = session(alloc, &config, 1);
    let mut moments = Still { moment: 0 };
    let mut connection = Connection::new(alloc, Source::new(reader), Sink::new(writer));
    let ended = match connection.greet(&config.tenants, config.data_centres) {
        Ok(_) => connection.serve(&mut session, &mut nodes, &mut moments),
        Err(error) => Err(error),
    };
    let (_, sink) = connection.into_inner();
    (ended, sink.into_inner())
}

/// Serves what a client sends, and gives how that ended and what it was answered.
pub(crate) fn serve(
    rt: &impl Abort,
    alloc: Global,
    client: &[u8],
) -> (Result<Ended, RequestError>, Vec<u8>) {
    exchange(rt, alloc, client, Vec::new(alloc))
}

/// Holds a whole conversation with a client, and gives how it ended and the writer.
pub(crate) fn converse<R: Read + Drop, W: Write>(
    rt: &impl Abort,
    alloc: Global,
    reader: R,
    writer: W,
) -> (Result<Ended, RequestError>, W) {
    let config = one_node(rt, alloc);
    let mut nodes = Cluster0::new(alloc, &config).expect(rt, "memory");
    let mut moments = Still { moment: 0 };
    let mut connection = Connection::new(alloc, Source::new(reader), Sink::new(writer));
    let ended = connection.converse(&config, &mut nodes, &mut moments);
    let (_, sink) = connection.into_inner();
    (ended, sink.into_inner())
}

/// Refuses each request that a client sends, and gives how that ended and the writer.
pub(crate) fn refuse<R: Read + Drop, W: Write>(
    alloc: Global,
    reader: R,
    writer: W,
    fault: Fault,
) -> (Result<Ended, RequestError>, W) {
    let mut connection = Connection::new(alloc, Source::new(reader), Sink::new(writer));
    let ended = connection.refuse_requests(fault);
    let (_, sink) = connection.into_inner();
    (ended, sink.into_inner())
}

/// A connection on which the client sends these bytes is answered by those, and ends so.
pub(crate) fn assert_served(
    rt: &impl Abort,
    alloc: Global,
    client: &str,
    ended: Ended,
    server: &str,
) {
    let (end, replies) = serve(rt, alloc, bytes_of(rt, alloc, client).as_slice());
    match end {
        Ok(end) => assert!(rt; end == ended),
        Err(_) => panic!(rt; "serving"),
    }
    assert_bytes(rt, alloc, replies.as_slice(), server);
}

/// A greeting of these bytes is refused with the fault, and answered by those.
pub(crate) fn assert_refused(
    rt: &impl Abort,
    alloc: Global,
    client: &str,
    fault: Fault,
    server: &str,
) {
    let (end, replies) = serve(rt, alloc, bytes_of(rt, alloc, client).as_slice());
    match end {
        Ok(_) => panic!(rt; "the greeting was taken"),
        Err(error) => assert!(rt; error == RequestError::Refused(fault)),
    }
    assert_bytes(rt, alloc, replies.as_slice(), server);
}
