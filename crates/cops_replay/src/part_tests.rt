//! Tenants' parts of audits and of the audits of scripts. Run with the Nth allocation failing, for
//! each N.
use crate::audit_tests::{ACME_GOES, GAMA_AND_BETA, written};
use crate::{PartRefusal, audit_part_text, extract_text};
use cops_script::{BadConfig, RunFault};
use cops_types::{Sink, Source};
use std::alloc::Global;
use std::process::Abort;

const GAMA: &[u8] = b"layout 2
cluster 1 1 5000 1
tenant gama 00000000-0000-0000-0000-000000000003 0 100 10000 10 4 20 8 1000
begin
gama 0.0 1 put y 37 - - = stored 1.0
gama 0.0 2 get x latest = absent
gama 0.0 2 get y latest = found 1.0 37 -
";

const BETA: &[u8] = b"layout 2
cluster 1 1 5000 1
tenant beta 00000000-0000-0000-0000-000000000002 0 100 10000 10 4 20 8 1000
begin
beta 0.0 0 put x 3939 - - = stored 1.0
";

/// The last line has no newline, and the token no hyphens.
const OLD: &[u8] = b"cluster 1 1 5000 1
tenant ab 00000000000000000000000000000001 0 100 10000 10 4 20 8 1000
tenant a 00000000000000000000000000000002 0 100 10000 10 4 20 8 1000
begin
ab 0.0 0 collect = removed 0
a 0.0 0 collect = removed 0
a";

const OLD_PART: &[u8] = b"cluster 1 1 5000 1
tenant a 00000000-0000-0000-0000-000000000002 0 100 10000 10 4 20 8 1000
begin
a 0.0 0 collect = removed 0
a
";

/// What a part is taken from.
#[derive(Clone, Copy)]
enum Whole<'a> {
    Audit(&'a [u8]),
    Script(&'a [u8]),
}

/// Writes the part.
fn write_part(
    alloc: Global,
    whole: Whole,
    sink: &mut Sink<Vec<u8>>,
    name: &[u8],
) -> Result<(), RunFault<PartRefusal>> {
    match whole {
        Whole::Audit(audit) => extract_text(alloc, &mut Source::new(audit), sink, name),
        Whole::Script(script) => {
            audit_part_text(alloc, &mut Source::new(script), sink, name, &mut None)
        }
    }
}

/// The part, unless memory ran out.
fn part_once(rt: &impl Abort, alloc: Global, whole: Whole, name: &[u8]) -> Option<Vec<u8>> {
    let mut sink = Sink::new(Vec::new(alloc));
    let ran = write_part(alloc, whole, &mut sink, name);
    written(rt, ran, sink)
}

/// Asserts the part.
fn assert_part(rt: &impl Abort, alloc: Global, whole: Whole, name: &[u8], part: &[u8]) {
    let text = match part_once(rt, alloc, whole, name) {
        Some(text) => text,
        None => part_once(rt, alloc, whole, name).expect(rt, "memory"),
    };
    assert!(rt; text.as_slice() == part);
}

/// Why there is no part, unless memory ran out.
fn refusal_once(alloc: Global, whole: Whole, name: &[u8]) -> Option<RunFault<PartRefusal>> {
    let mut sink = Sink::new(Vec::new(alloc));
    match write_part(alloc, whole, &mut sink, name) {
        Ok(()) | Err(RunFault::OutOfMemory) => None,
        Err(fault) => Some(fault),
    }
}

/// Asserts why there is no part.
fn assert_refused(rt: &impl Abort, alloc: Global, whole: Whole, name: &[u8], why: PartRefusal) {
    let fault = match refusal_once(alloc, whole, name) {
        Some(fault) => fault,
        None => refusal_once(alloc, whole, name).expect(rt, "memory"),
    };
    assert!(rt; fault == RunFault::Refused(why));
}

#[test]
fn a_part_has_one_tenant(rt: HostRuntime) {
    let whole = Whole::Audit(GAMA_AND_BETA);
    assert_part(&rt, rt.alloc(), whole, b"gama", GAMA);
    assert_part(&rt, rt.alloc(), Whole::Audit(GAMA), b"gama", GAMA);
    assert_part(&rt, rt.alloc(), Whole::Audit(OLD), b"a", OLD_PART);
}

#[test]
fn an_audit_without_a_part(rt: HostRuntime) {
    let cut = Whole::Audit(&GAMA_AND_BETA[..30]);
    let bad = PartRefusal::BadConfig(BadConfig { line: 3 });
    let whole = Whole::Audit(GAMA_AND_BETA);
    assert_refused(&rt, rt.alloc(), whole, b"gam", PartRefusal::UnknownTenant);
    assert_refused(&rt, rt.alloc(), cut, b"gama", bad);
}

#[test]
fn a_part_of_a_script_has_one_tenant(rt: HostRuntime) {
    let whole = Whole::Script(ACME_GOES);
    assert_part(&rt, rt.alloc(), whole, b"gama", GAMA);
    assert_part(&rt, rt.alloc(), whole, b"beta", BETA);
}

#[test]
fn a_script_without_a_part(rt: HostRuntime) {
    let cut = Whole::Script(&ACME_GOES[..30]);
    let bad = PartRefusal::BadConfig(BadConfig { line: 2 });
    let whole = Whole::Script(ACME_GOES);
    assert_refused(&rt, rt.alloc(), whole, b"acme", PartRefusal::UnknownTenant);
    assert_refused(&rt, rt.alloc(), cut, b"gama", bad);
}
