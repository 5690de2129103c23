use crate::pairs::{deps, near, pair};
use cops_types::texts::{push_deps, push_fault, push_near};
use cops_types::{Deps, Fault, Near, Pair, Version};
use std::alloc::Global;
use std::process::Abort;

/// Asserts how a fault is displayed.
fn assert_displayed(rt: &impl Abort, alloc: Global, fault: Fault, text: &[u8]) {
    let shown = format!(in alloc; "{fault}").expect(rt, "memory");
    assert!(rt; shown.as_bytes() == text);
}

/// Asserts how a fault is written.
fn assert_fault(rt: &impl Abort, alloc: Global, fault: Fault, text: &[u8]) {
    assert!(rt; fault.text().as_slice() == text);
    assert_displayed(rt, alloc, fault, text);
    let mut out = Vec::new(alloc);
    push_fault(&mut out, fault).expect(rt, "memory");
    assert!(rt; out.as_slice() == text);
}

#[test]
fn texts_of_faults(rt: HostRuntime) {
    assert_fault(&rt, rt.alloc(), Fault::Syntax, b"E01");
    assert_fault(&rt, rt.alloc(), Fault::BadKey, b"E10");
    assert_fault(&rt, rt.alloc(), Fault::OutOfMemory, b"E23");
    assert_fault(&rt, rt.alloc(), Fault::WriteFault, b"E27");
    assert_fault(&rt, rt.alloc(), Fault::NoSlot, b"E28");
    assert_fault(&rt, rt.alloc(), Fault::ClockTooGreat, b"E29");
}

#[test]
fn a_version_displayed(rt: HostRuntime) {
    let version = Version::from_u64(131073);
    let shown = format!(in rt.alloc(); "{version}").expect(&rt, "memory");
    assert!(rt; shown.as_str() == "2.1");
}

/// Asserts how a list is written.
fn assert_deps_text(rt: &impl Abort, alloc: Global, deps: &Deps, text: &[u8]) {
    let mut out = Vec::new(alloc);
    push_deps(&mut out, deps.owned()).expect(rt, "memory");
    assert!(rt; out.as_slice() == text);
}

/// Asserts how a list of nearest ones is written.
fn assert_near_text(rt: &impl Abort, alloc: Global, near: &Near, text: &[u8]) {
    let mut out = Vec::new(alloc);
    push_near(&mut out, near.owned()).expect(rt, "memory");
    assert!(rt; out.as_slice() == text);
}

/// Asserts how both kinds of lists of these pairs are written.
fn assert_written(rt: &impl Abort, alloc: Global, pairs: &[Pair], text: &[u8]) {
    assert_deps_text(rt, alloc, &deps(rt, alloc, pairs), text);
    assert_near_text(rt, alloc, &near(rt, alloc, pairs), text);
}

#[test]
fn lists_as_words(rt: HostRuntime) {
    let two = [pair(&rt, b"y", 3, 0), pair(&rt, b"x", 2, 1)];
    assert_written(&rt, rt.alloc(), &two, b"x:2.1,y:3.0");
    let long = [pair(&rt, b"z", 3, 0), pair(&rt, b"sixteen_letters_", 4, 5)];
    assert_written(&rt, rt.alloc(), &long, b"sixteen_letters_:4.5,z:3.0");
}
