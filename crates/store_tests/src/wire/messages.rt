ghost use Rattle.cops_wire.specs.Fitting.{CanBeWritten};

use cops_types::Fault;
use cops_wire::{Message, encode};
use std::process::Abort;

const HANDLE: [u8; 9] = [67, 0, 0, 0, 0, 0, 0, 0, 1];

/// A message is written as these bytes.
fn is_written(rt: &impl Abort, out: &mut Vec<u8>, message: &Message, bytes: &[u8])
    requires { CanBeWritten message.now }
{
    out.clear();
    encode(message, out).expect(rt, "memory");
    assert_eq!(rt; out.as_slice(), bytes);
}

#[test]
fn messages_as_bytes(rt: HostRuntime) {
    let mut out = Vec::new(rt.alloc());
    is_written(&rt, &mut out, &Message::Ready, &[0, 0, 0, 1, 129]);
    is_written(
        &rt,
        &mut out,
        &Message::Created(HANDLE),
        &[0, 0, 0, 10, 130, 67, 0, 0, 0, 0, 0, 0, 0, 1],
    );
    is_written(
        &rt,
        &mut out,
        &Message::Refused(Fault::NoContext),
        &[0, 0, 0, 2, 255, 7],
    );
}
