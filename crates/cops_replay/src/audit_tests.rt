//! Audits of scripts in which tenants come and go, and their replays. Run with the Nth allocation
//! failing, for each N.
use crate::{ReplayRefusal, audit_text, replay_text};
use cops_script::RunFault;
use cops_types::{Sink, Source};
use std::alloc::Global;
use std::process::Abort;

/// Acme's slot is gama's at the end, and zeta has left again.
pub(crate) const ACME_GOES: &[u8] = b"cluster 1 1 5000 1
tenant acme 00000000-0000-0000-0000-000000000001 0 100 10000 10 4 20 8 1000
tenant beta 00000000-0000-0000-0000-000000000002 0 100 10000 10 4 20 8 1000
begin
acme open a 0
acme ctx a
acme put a 1 x 10
acme done a 0
beta open b 0
beta ctx b
beta put b 1 x 99
beta done b 0
- acme
+ gama 00000000-0000-0000-0000-000000000003 0 100 10000 10 4 20 8 1000
gama open g 0
gama ctx g
gama put g 1 y 7
gama done g 1
gama get g 1 x y
gama done g 2
+ zeta 00000000-0000-0000-0000-000000000004 0 100 10000 10 4 20 8 1000
zeta open z 0
zeta ctx z
zeta put z 1 x 5
zeta done z 0
- zeta
";

pub(crate) const GAMA_AND_BETA: &[u8] = b"layout 2
cluster 1 1 5000 1
tenant gama 00000000-0000-0000-0000-000000000003 0 100 10000 10 4 20 8 1000
tenant beta 00000000-0000-0000-0000-000000000002 0 100 10000 10 4 20 8 1000
begin
gama 0.0 1 put y 37 - - = stored 1.0
gama 0.0 2 get x latest = absent
gama 0.0 2 get y latest = found 1.0 37 -
beta 0.0 0 put x 3939 - - = stored 1.0
";

const NOBODY_COMES: &[u8] = b"cluster 1 1 5000 1
begin
";

const NOBODY: &[u8] = b"layout 2
cluster 1 1 5000 1
begin
";

/// The only tenant of the head goes.
const ACME_ALONE_GOES: &[u8] = b"cluster 1 1 5000 1
tenant acme 00000000-0000-0000-0000-000000000001 0 100 10000 10 4 20 8 1000
begin
acme open a 0
- acme
";

/// The output of a run, unless memory ran out.
pub(crate) fn written<E: Drop>(
    rt: &impl Abort,
    ran: Result<(), RunFault<E>>,
    sink: Sink<Vec<u8>>,
) -> Option<Vec<u8>> {
    match ran {
        Ok(()) => Some(sink.into_inner()),
        Err(RunFault::OutOfMemory) => None,
        Err(RunFault::WriteFault) => None,
        Err(_) => panic!(rt; "what is read is whole"),
    }
}

/// The audit of a script, unless memory ran out.
fn audit_once(rt: &impl Abort, alloc: Global, script: &[u8]) -> Option<Vec<u8>> {
    let mut source = Source::new(script);
    let mut sink = Sink::new(Vec::new(alloc));
    let ran = audit_text(alloc, &mut source, &mut sink);
    written(rt, ran, sink)
}

/// Asserts the audit of a script.
fn assert_audit(rt: &impl Abort, alloc: Global, script: &[u8], audit: &[u8]) {
    let text = match audit_once(rt, alloc, script) {
        Some(text) => text,
        None => audit_once(rt, alloc, script).expect(rt, "memory"),
    };
    assert!(rt; text.as_slice() == audit);
}

/// The output of a replay, unless memory ran out.
fn replay_once(rt: &impl Abort, alloc: Global, audit: &[u8], name: &[u8]) -> Option<Vec<u8>> {
    let mut source = Source::new(audit);
    let mut sink = Sink::new(Vec::new(alloc));
    let ran = replay_text(alloc, &mut source, &mut sink, name);
    written(rt, ran, sink)
}

/// Asserts the output of a replay.
fn assert_replay(rt: &impl Abort, alloc: Global, audit: &[u8], name: &[u8], told: &[u8]) {
    let text = match replay_once(rt, alloc, audit, name) {
        Some(text) => text,
        None => replay_once(rt, alloc, audit, name).expect(rt, "memory"),
    };
    assert!(rt; text.as_slice() == told);
}

/// `true` if an audit has no tenant of a name, unless memory ran out.
fn is_unknown(alloc: Global, audit: &[u8], name: &[u8]) -> Option<bool> {
    let mut source = Source::new(audit);
    let mut sink = Sink::new(Vec::new(alloc));
    match replay_text(alloc, &mut source, &mut sink, name) {
        Err(RunFault::Refused(ReplayRefusal::UnknownTenant)) => Some(true),
        Err(RunFault::OutOfMemory) => None,
        _ => Some(false),
    }
}

/// Asserts that an audit has no tenant of a name.
fn assert_unknown(rt: &impl Abort, alloc: Global, audit: &[u8], name: &[u8]) {
    let unknown = match is_unknown(alloc, audit, name) {
        Some(unknown) => unknown,
        None => is_unknown(alloc, audit, name).expect(rt, "memory"),
    };
    assert!(rt; unknown);
}

#[test]
fn an_audit_has_who_is_open_at_the_end(rt: HostRuntime) {
    assert_audit(&rt, rt.alloc(), ACME_GOES, GAMA_AND_BETA);
    assert_replay(&rt, rt.alloc(), GAMA_AND_BETA, b"gama", b"same 3\n");
    assert_replay(&rt, rt.alloc(), GAMA_AND_BETA, b"beta", b"same 1\n");
    assert_unknown(&rt, rt.alloc(), GAMA_AND_BETA, b"acme");
    assert_unknown(&rt, rt.alloc(), GAMA_AND_BETA, b"zeta");
}

/// Asserts that the audit of a script is written, or a prefix of it if memory runs out.
fn assert_prefix(rt: &impl Abort, alloc: Global, script: &[u8], audit: &[u8]) {
    let mut source = Source::new(script);
    let mut sink = Sink::new(Vec::new(alloc));
    let is_whole = audit_text(alloc, &mut source, &mut sink).is_ok();
    let text = sink.into_inner();
    assert!(rt; audit.starts_with(text.as_slice()));
    assert!(rt; !is_whole || text.len() == audit.len());
}

#[test]
fn refused_memory_leaves_a_prefix_of_an_audit(rt: HostRuntime) {
    assert_prefix(&rt, rt.alloc(), ACME_GOES, GAMA_AND_BETA);
}

#[test]
fn an_audit_may_have_no_tenant(rt: HostRuntime) {
    assert_audit(&rt, rt.alloc(), NOBODY_COMES, NOBODY);
    assert_audit(&rt, rt.alloc(), ACME_ALONE_GOES, NOBODY);
    assert_unknown(&rt, rt.alloc(), NOBODY, b"acme");
}
