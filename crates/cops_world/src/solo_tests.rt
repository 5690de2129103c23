//! Runs of a script for one name: a tenant with two lives, one that a line admits to another's slot, one
//! that says nothing, and one that was never open.
use crate::solo_script;
use cops_script::{RunFault, SoloRefusal};
use cops_types::{Sink, Source};
use std::alloc::Global;
use std::process::Abort;

const SCRIPT: &[u8] = b"cluster 1 1 5000 1
tenant acme 00000000-0000-0000-0000-000000000001 0 100 10000 10 4 20 8 1000
tenant beta 00000000-0000-0000-0000-000000000002 0 100 10000 10 4 20 8 1000
begin
acme open a 0
gama open a 0
- acme
acme ctx a
+ gama 00000000-0000-0000-0000-000000000003 7 100 10000 10 4 20 8 1000
gama open a 0
+ acme 00000000-0000-0000-0000-000000000001 0 100 10000 10 4 20 8 1000
+ acme 00000000-0000-0000-0000-000000000001 0 100 10000 10 4 20 8 1000
acme put a 1 x 10
acme open a 0
acme fly
- gama
acme ctx a
gama ctx a";

/// Nothing is left of its first life, and what comes between the two is not for it.
const ACME: &[u8] = b"acme opened
acme E03
acme opened
acme E01
acme context 1
";

/// 0 for an answered script, 2 if nobody of the name was ever open, and else 1.
fn code(ran: Result<(), RunFault<SoloRefusal>>) -> u64 {
    match ran {
        Ok(()) => 0,
        Err(RunFault::Refused(SoloRefusal::UnknownTenant)) => 2,
        Err(_) => 1,
    }
}

/// Asserts what is written for a name, and with which code the run ends.
fn assert_solo(rt: &impl Abort, alloc: Global, name: &[u8], number: u64, answer: &[u8]) {
    let mut source = Source::new(SCRIPT);
    let mut sink = Sink::new(Vec::new(alloc));
    let ran = solo_script(alloc, &mut source, &mut sink, name);
    assert!(rt; code(ran) == number);
    assert!(rt; sink.into_inner().as_slice() == answer);
}

#[test]
fn each_life_of_a_name_is_alone(rt: HostRuntime) {
    assert_solo(&rt, rt.alloc(), b"acme", 0, ACME);
    assert_solo(&rt, rt.alloc(), b"gama", 0, b"gama opened\n");
    assert_solo(&rt, rt.alloc(), b"beta", 0, b"");
    assert_solo(&rt, rt.alloc(), b"zeta", 2, b"");
}
