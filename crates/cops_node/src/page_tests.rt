use crate::rows::PackedExchange;
use crate::{AuditPages, AuditRow};
use std::alloc::Global;
use std::process::Abort;

/// Returns an audit for three slots. One allocation may fail, so it is tried twice.
fn audit_of_three(rt: &impl Abort, alloc: Global) -> AuditPages {
    match AuditPages::new(alloc, 3) {
        Ok(audit) => audit,
        Err(_) => AuditPages::new(alloc, 3).expect(rt, "memory"),
    }
}

fn row(moment: u64) -> AuditRow {
    AuditRow::new(moment, PackedExchange::removed(moment))
}

/// Appends a call of this timestamp to a slot. If memory runs out, which leaves the numbers of
/// calls as they were, tries again.
fn note(rt: &impl Abort, audit: &mut AuditPages, slot: usize, moment: u64) {
    let before = [audit.len(0), audit.len(1), audit.len(2)];
    assert!(rt; slot < audit.slots() && audit.len(slot) < u64::MAX);
    if audit.reserve(slot).is_err() {
        assert!(rt; before == [audit.len(0), audit.len(1), audit.len(2)]);
        audit.reserve(slot).expect(rt, "memory");
    }
    audit.push(slot, row(moment));
}

/// Asserts that the slot has calls of these timestamps, from `first` on, and no others.
fn has_calls(rt: &impl Abort, audit: &AuditPages, slot: usize, first: u64, count: u64) {
    assert_eq!(rt; audit.len(slot), count);
    for place in 0..count {
        let found = audit.get(slot, place).expect(rt, "a call");
        assert!(rt; found.moment() >= first && found.moment() - first == place);
    }
    assert!(rt; audit.get(slot, count).is_none());
    assert!(rt; audit.get(slot, u64::MAX).is_none());
}

#[test]
fn calls_keep_their_places_over_pages(rt: HostRuntime) {
    let mut audit = audit_of_three(&rt, rt.alloc());
    for moment in 0..1000 {
        note(&rt, &mut audit, 1, moment);
    }
    has_calls(&rt, &audit, 1, 0, 1000);
    has_calls(&rt, &audit, 0, 0, 0);
    has_calls(&rt, &audit, 2, 0, 0);
    has_calls(&rt, &audit, 3, 0, 0);
}

#[test]
fn pages_of_slots_lie_between_one_another(rt: HostRuntime) {
    let mut audit = audit_of_three(&rt, rt.alloc());
    for moment in 0..200 {
        note(&rt, &mut audit, 2, 2000 + moment);
        note(&rt, &mut audit, 0, moment);
        note(&rt, &mut audit, 1, 1000 + moment);
    }
    for slot in 0..3 {
        has_calls(&rt, &audit, slot, 1000 * slot as u64, 200);
    }
}

#[test]
fn pages_of_a_cleared_slot_are_used_by_others(rt: HostRuntime) {
    let mut audit = audit_of_three(&rt, rt.alloc());
    for moment in 0..256 {
        note(&rt, &mut audit, 0, moment);
        note(&rt, &mut audit, 1, 1000 + moment);
    }
    let places = audit.places();
    assert_eq!(rt; audit.slots(), 3);
    audit.clear(0);
    has_calls(&rt, &audit, 0, 0, 0);
    has_calls(&rt, &audit, 1, 1000, 256);
    for moment in 0..128 {
        note(&rt, &mut audit, 2, 2000 + moment);
        note(&rt, &mut audit, 0, 3000 + moment);
    }
    assert_eq!(rt; audit.places(), places);
    has_calls(&rt, &audit, 0, 3000, 128);
    has_calls(&rt, &audit, 1, 1000, 256);
    has_calls(&rt, &audit, 2, 2000, 128);
}

#[test]
fn added_slots_have_no_calls(rt: HostRuntime) {
    let mut audit = audit_of_three(&rt, rt.alloc());
    note(&rt, &mut audit, 2, 5);
    if audit.add_slots(2).is_err() {
        has_calls(&rt, &audit, 2, 5, 1);
        audit.add_slots(2).expect(&rt, "memory");
    }
    has_calls(&rt, &audit, 4, 0, 0);
    note(&rt, &mut audit, 4, 7);
    has_calls(&rt, &audit, 4, 7, 1);
    has_calls(&rt, &audit, 2, 5, 1);
}
