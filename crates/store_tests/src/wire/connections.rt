use super::exchanges::{
    CLIENT, SERVER, assert_refused, assert_served, bytes_of, converse, exchange, serve,
};
use cops_types::{Fault, RequestError};
use cops_wire::Ended;
use std::alloc::Global;
use std::io::{self, ErrorKind, Read, Write};
use std::process::Abort;

#[test]
fn a_client_puts_and_gets(rt: HostRuntime) {
    assert_served(&rt, rt.alloc(), CLIENT, Ended::Clean, SERVER);
}

#[test]
fn refused_requests_do_not_end_serving(rt: HostRuntime) {
    let client = "00000012 07 00000000000000000000000000000001 00
        00000001 02
        00000010 04 52 0000000000000001 01 78 0002 3130
        0000000b 05 43 0000000000000001 00
        0000000d 05 43 0000000000000001 01 01 58
        00000010 04 43 0000000000000001 01 78 0002 3130";
    let server = "00000001 81
        0000000a 82 43 0000000000000001
        00000002 ff 07
        00000002 ff 01
        00000002 ff 0a
        0000000b 84 01 78 0000000000010000";
    assert_served(&rt, rt.alloc(), client, Ended::Clean, server);
}

#[test]
fn an_empty_value_over_frames(rt: HostRuntime) {
    let client = "00000012 07 00000000000000000000000000000001 00
        00000001 02
        0000000e 04 43 0000000000000001 01 78 0000
        0000000d 05 43 0000000000000001 01 01 78";
    let server = "00000001 81
        0000000a 82 43 0000000000000001
        0000000b 84 01 78 0000000000010000
        00000011 85 01 01 78 01 0000 0000000000010000 0000";
    assert_served(&rt, rt.alloc(), client, Ended::Clean, server);
}

#[test]
fn an_absent_key_and_two_keys(rt: HostRuntime) {
    let client = "00000012 07 00000000000000000000000000000001 00
        00000001 02
        00000010 04 43 0000000000000001 01 78 0002 3130
        0000000f 05 43 0000000000000001 02 01 78 01 79";
    let server = "00000001 81
        0000000a 82 43 0000000000000001
        0000000b 84 01 78 0000000000010000
        00000016 85 02 01 78 01 0002 3130 0000000000010000 0000 01 79 00";
    assert_served(&rt, rt.alloc(), client, Ended::Clean, server);
}

/// The bytes after a greeting tear the connection.
fn assert_torn(rt: &impl Abort, alloc: Global, frame: &str) {
    let mut client = bytes_of(rt, alloc, "00000012 07 00000000000000000000000000000001 00");
    let frame = bytes_of(rt, alloc, frame);
    client
        .extend_from_slice(frame.as_slice())
        .expect(rt, "memory");
    let (end, replies) = serve(rt, alloc, client.as_slice());
    assert!(rt; matches!(end, Ok(Ended::Torn)));
    assert_eq!(rt;
        replies.as_slice(),
        [0, 0, 0, 1, 129, 0, 0, 0, 2, 255, 1].as_slice()
    );
}

#[test]
fn a_frame_of_no_length(rt: HostRuntime) {
    assert_torn(&rt, rt.alloc(), "00000000");
}

#[test]
fn a_frame_too_long(rt: HostRuntime) {
    assert_torn(&rt, rt.alloc(), "003d0901");
}

#[test]
fn a_frame_of_an_unknown_tag(rt: HostRuntime) {
    assert_torn(&rt, rt.alloc(), "00000001 06");
}

#[test]
fn a_put_with_a_byte_left_over(rt: HostRuntime) {
    assert_torn(
        &rt,
        rt.alloc(),
        "00000011 04 43 0000000000000001 01 78 0002 3130 00",
    );
}

#[test]
fn an_end_inside_a_frame(rt: HostRuntime) {
    assert_torn(&rt, rt.alloc(), "0000");
}

#[test]
fn a_second_greeting(rt: HostRuntime) {
    assert_torn(
        &rt,
        rt.alloc(),
        "00000012 07 00000000000000000000000000000001 00",
    );
}

#[test]
fn a_message_of_the_server_from_a_client(rt: HostRuntime) {
    assert_torn(&rt, rt.alloc(), "00000001 81");
}

#[test]
fn an_end_right_after_the_greeting(rt: HostRuntime) {
    let client = "00000012 07 00000000000000000000000000000001 00";
    assert_served(&rt, rt.alloc(), client, Ended::Clean, "00000001 81");
}

#[test]
fn greetings_of_no_form(rt: HostRuntime) {
    let alloc = rt.alloc();
    assert_refused(&rt, alloc, "", Fault::Syntax, "00000002 ff 01");
    let inside = "00000012 07 00000000";
    assert_refused(&rt, alloc, inside, Fault::Syntax, "00000002 ff 01");
    assert_refused(&rt, alloc, "00000001 02", Fault::Syntax, "00000002 ff 01");
}

/// When nodes had 8 bits of a version, Hello had this tag.
#[test]
fn the_greeting_of_the_first_layout_is_refused(rt: HostRuntime) {
    let client = "00000012 01 00000000000000000000000000000001 00";
    assert_refused(&rt, rt.alloc(), client, Fault::Syntax, "00000002 ff 01");
}

#[test]
fn a_greeting_with_an_unknown_token(rt: HostRuntime) {
    let client = "00000012 07 00000000000000000000000000000009 00";
    assert_refused(
        &rt,
        rt.alloc(),
        client,
        Fault::UnknownTenant,
        "00000002 ff 02",
    );
}

#[test]
fn a_greeting_to_a_missing_data_centre(rt: HostRuntime) {
    let client = "00000012 07 00000000000000000000000000000001 01";
    assert_refused(
        &rt,
        rt.alloc(),
        client,
        Fault::NoSuchPlace,
        "00000002 ff 16",
    );
}

/// Returns `true` if frames end at this place: after a greeting, and after each request.
fn is_between_frames(len: usize) -> bool {
    matches!(len, 22 | 27 | 47 | 64 | 78 | 95)
}

#[test]
fn every_prefix(rt: HostRuntime) {
    let client = bytes_of(&rt, rt.alloc(), CLIENT);
    let server = bytes_of(&rt, rt.alloc(), SERVER);
    for len in 22..client.len() {
        let (end, replies) = serve(&rt, rt.alloc(), &client.as_slice()[..len]);
        if is_between_frames(len) {
            assert!(&rt; matches!(end, Ok(Ended::Clean)));
            assert!(&rt; server.as_slice().starts_with(replies.as_slice()));
        } else {
            assert!(&rt; matches!(end, Ok(Ended::Torn)));
            let told = replies.as_slice().strip_suffix(&[0, 0, 0, 2, 255, 1]);
            assert!(&rt; told.is_some_and(|told| server.as_slice().starts_with(told)));
        }
    }
}

/// Takes a byte at a time, and fails at one of its writes.
#[derive(Drop)]
struct Trickle {
    taken: Vec<u8>,
    writes_to_failure: u64,
}

impl Write for Trickle {
    fn write(&mut self, buf: &[u8]) -> io::Result<usize> {
        if self.writes_to_failure == 0 {
            return Err(io::Error::from(ErrorKind::Other));
        }
        self.writes_to_failure -= 1;
        match buf {
            [] => Ok(0),
            [first, ..] => {
                self.taken.push(*first)?;
                Ok(1)
            }
        }
    }

    fn flush(&mut self) -> io::Result<()> {
        Ok(())
    }
}

/// With a writer that fails at this write, a prefix of the replies is written.
fn assert_write_fault(rt: &impl Abort, alloc: Global, writes_to_failure: u64) {
    let client = bytes_of(rt, alloc, CLIENT);
    let server = bytes_of(rt, alloc, SERVER);
    let trickle = Trickle {
        taken: Vec::new(alloc),
        writes_to_failure,
    };
    let (end, trickle) = exchange(rt, alloc, client.as_slice(), trickle);
    assert!(rt; matches!(end, Err(RequestError::Refused(Fault::WriteFault))));
    assert_eq!(rt; trickle.taken.len() as u64, writes_to_failure);
    assert!(rt; server.as_slice().starts_with(trickle.taken.as_slice()));
}

#[test]
fn a_writer_that_fails(rt: HostRuntime) {
    assert_write_fault(&rt, rt.alloc(), 1);
    assert_write_fault(&rt, rt.alloc(), 5);
    assert_write_fault(&rt, rt.alloc(), 60);
}

/// Fails at its first read.
#[derive(Drop)]
struct Deaf;

impl Read for Deaf {
    fn read(&mut self, _buf: &mut [u8]) -> io::Result<usize> {
        Err(io::Error::from(ErrorKind::Other))
    }
}

#[test]
fn a_reader_that_fails(rt: HostRuntime) {
    let (end, replies) = exchange(&rt, rt.alloc(), Deaf, Vec::new(rt.alloc()));
    assert!(&rt; matches!(end, Err(RequestError::Refused(Fault::ReadFault))));
    assert_eq!(rt; replies.len(), 0);
}

#[test]
fn a_whole_conversation(rt: HostRuntime) {
    let client = bytes_of(&rt, rt.alloc(), CLIENT);
    let server = bytes_of(&rt, rt.alloc(), SERVER);
    let (end, replies) = converse(&rt, rt.alloc(), client.as_slice(), Vec::new(rt.alloc()));
    assert!(&rt; matches!(end, Ok(Ended::Clean)));
    assert_eq!(rt; replies.as_slice(), server.as_slice());
}

#[test]
fn a_conversation_that_is_refused(rt: HostRuntime) {
    let client = bytes_of(&rt, rt.alloc(), "00000001 02");
    let (end, replies) = converse(&rt, rt.alloc(), client.as_slice(), Vec::new(rt.alloc()));
    assert!(&rt; matches!(end, Err(RequestError::Refused(Fault::Syntax))));
    assert_eq!(rt; replies.as_slice(), [0, 0, 0, 2, 255, 1].as_slice());
}
