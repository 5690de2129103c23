//! Worked examples. In a run in which one allocation fails, the call is made again, after a check
//! that nothing has changed.
ghost use Rattle.std.specs.Prelude.{◌≡◌, ◌<◌, length};

use crate::entries::{entry, version};
use cops_outbox::{Ack, Outbox};
use cops_types::{Fault, RequestError};
use std::alloc::Global;
use std::process::Abort;

/// Returns the outbox of the first of some data centres, for two tenants.
fn outbox(rt: &impl Abort, alloc: Global, data_centres: usize) -> Outbox
    ensures tenants { result.tenants ≡ 2 }
    ensures data_centres { length result.queues ≡ data_centres }
{
    match Outbox::new(alloc, data_centres, 0, 2) {
        Ok(outbox) => outbox,
        Err(_) => Outbox::new(alloc, data_centres, 0, 2).expect(rt, "memory"),
    }
}

/// Returns the clock of the slot's head, or 0 without one.
fn front(outbox: &Outbox, slot: usize, dc: usize) -> u64
    requires slot { slot < outbox.now.tenants }
    requires dc { dc < length outbox.now.queues }
{
    match outbox.front_of(slot, dc) {
        Some(entry) => entry.version().clock(),
        None => 0,
    }
}

/// Returns the head of each tenant's queue and the number of its entries, for a data centre.
fn seen(outbox: &Outbox, dc: usize) -> ((u64, usize), (u64, usize))
    requires tenants { outbox.now.tenants ≡ 2 }
    requires dc { dc < length outbox.now.queues }
{
    let first = (front(outbox, 0, dc), outbox.waiting(0, dc));
    let second = (front(outbox, 1, dc), outbox.waiting(1, dc));
    (first, second)
}

/// Adds the entry with this clock, to all or to none.
fn push_within(
    rt: &impl Abort,
    alloc: Global,
    outbox: &mut Outbox,
    slot: usize,
    clock: u64,
    limit: u64,
)
    requires slot { slot < 2 }
    requires tenants { outbox.old.tenants ≡ 2 }
    requires data_centres { length outbox.old.queues ≡ 3 }
    ensures tenants { outbox.new.tenants ≡ 2 }
    ensures data_centres { length outbox.new.queues ≡ 3 }
{
    let entry = entry(rt, alloc, b"x", clock);
    let before = (seen(outbox, 1), seen(outbox, 2));
    if let Err(error) = outbox.push(slot, &entry, limit) {
        assert_eq!(rt; error, RequestError::OutOfMemory);
        assert_eq!(rt; (seen(outbox, 1), seen(outbox, 2)), before);
        outbox.push(slot, &entry, limit).expect(rt, "memory");
    }
}

/// Adds the entry with this clock; no queue has a limit.
fn push(rt: &impl Abort, alloc: Global, outbox: &mut Outbox, slot: usize, clock: u64)
    requires slot { slot < 2 }
    requires tenants { outbox.old.tenants ≡ 2 }
    requires data_centres { length outbox.old.queues ≡ 3 }
    ensures tenants { outbox.new.tenants ≡ 2 }
    ensures data_centres { length outbox.new.queues ≡ 3 }
{
    push_within(rt, alloc, outbox, slot, clock, u64::MAX);
}

/// The data centre acknowledges the version with this clock.
fn ack(rt: &impl Abort, outbox: &mut Outbox, slot: usize, dc: usize, clock: u64, told: Ack)
    requires slot { slot < 2 }
    requires dc { dc < 3 }
    requires tenants { outbox.old.tenants ≡ 2 }
    requires data_centres { length outbox.old.queues ≡ 3 }
    ensures tenants { outbox.new.tenants ≡ 2 }
    ensures data_centres { length outbox.new.queues ≡ 3 }
{
    assert_eq!(rt; outbox.ack(slot, dc, version(rt, clock)), told);
}

/// Three data centres and the first entry of each tenant.
fn with_one_each(rt: &impl Abort, alloc: Global) -> Outbox
    ensures tenants { result.tenants ≡ 2 }
    ensures data_centres { length result.queues ≡ 3 }
{
    let mut outbox = outbox(rt, alloc, 3);
    push_within(rt, alloc, &mut outbox, 0, 1, 1);
    push_within(rt, alloc, &mut outbox, 1, 2, 1);
    outbox
}

#[test]
fn each_tenant_has_a_limit(rt: HostRuntime) {
    let alloc = rt.alloc();
    let mut outbox = outbox(&rt, alloc, 3);
    assert!(rt; !outbox.is_full(0, 1) && !outbox.is_full(1, 1));
    push_within(&rt, alloc, &mut outbox, 0, 1, 1);
    assert!(rt; outbox.is_full(0, 1) && !outbox.is_full(1, 1));
    push_within(&rt, alloc, &mut outbox, 1, 2, 1);
    assert!(rt; outbox.is_full(0, 1) && outbox.is_full(1, 1));
}

#[test]
fn tenants_share_a_queue(rt: HostRuntime) {
    let alloc = rt.alloc();
    let mut outbox = outbox(&rt, alloc, 2);
    let first = entry(&rt, alloc, b"x", 1);
    outbox.push(0, &first, 1).expect(&rt, "room");
    let second = entry(&rt, alloc, b"x", 2);
    assert_eq!(rt;
        outbox.push(0, &second, 1),
        Err(RequestError::Refused(Fault::OutboxFull))
    );
    outbox.push(1, &first, 1).expect(&rt, "room");
    assert_eq!(rt; front(&outbox, 1, 1), 1);
    assert_eq!(rt; outbox.ack(1, 1, version(&rt, 2)), Ack::NotFront);
    assert_eq!(rt; outbox.ack(0, 1, version(&rt, 1)), Ack::Acked);
    assert_eq!(rt; front(&outbox, 0, 1), 0);
}

/// Three entries of one tenant and two of the other.
fn with_five(rt: &impl Abort, alloc: Global) -> Outbox
    ensures tenants { result.tenants ≡ 2 }
    ensures data_centres { length result.queues ≡ 3 }
{
    let mut outbox = outbox(rt, alloc, 3);
    push(rt, alloc, &mut outbox, 0, 1);
    push(rt, alloc, &mut outbox, 1, 1);
    push(rt, alloc, &mut outbox, 0, 2);
    push(rt, alloc, &mut outbox, 1, 5);
    push(rt, alloc, &mut outbox, 0, 3);
    outbox
}

#[test]
fn entries_come_after_what_is_left(rt: HostRuntime) {
    let alloc = rt.alloc();
    let mut outbox = with_five(&rt, alloc);
    ack(&rt, &mut outbox, 0, 1, 1, Ack::Acked);
    ack(&rt, &mut outbox, 0, 1, 2, Ack::Acked);
    ack(&rt, &mut outbox, 0, 2, 1, Ack::Acked);
    push(&rt, alloc, &mut outbox, 0, 4);
    assert_eq!(rt; seen(&outbox, 1), ((3, 2), (1, 2)));
    assert_eq!(rt; seen(&outbox, 2), ((2, 3), (1, 2)));
}

#[test]
fn entries_come_to_an_empty_queue(rt: HostRuntime) {
    let alloc = rt.alloc();
    let mut outbox = with_one_each(&rt, alloc);
    ack(&rt, &mut outbox, 0, 1, 1, Ack::Acked);
    ack(&rt, &mut outbox, 1, 0, 1, Ack::NotFront);
    push(&rt, alloc, &mut outbox, 0, 6);
    assert_eq!(rt; seen(&outbox, 1), ((6, 1), (2, 1)));
    assert_eq!(rt; seen(&outbox, 2), ((1, 2), (2, 1)));
}

#[test]
fn one_data_centre_sends_nothing(rt: HostRuntime) {
    let alloc = rt.alloc();
    let mut outbox = outbox(&rt, alloc, 1);
    let entry = entry(&rt, alloc, b"x", 1);
    outbox
        .push(0, &entry, 0)
        .expect(&rt, "no memory is asked for");
    assert_eq!(rt; seen(&outbox, 0), ((0, 0), (0, 0)));
    assert!(rt; !outbox.is_full(0, 0));
}

/// Makes the slot, again if memory ran out, which leaves the outbox as it was.
fn admit(rt: &impl Abort, outbox: &mut Outbox, slot: usize)
    requires { slot < 64 }
    ensures tenants { slot < outbox.new.tenants }
    ensures data_centres { length outbox.new.queues ≡ length outbox.old.queues }
{
    match outbox.admit(slot) {
        Ok(()) => {}
        Err(_) => outbox.admit(slot).expect(rt, "memory"),
    }
}

#[test]
fn refused_slots_change_nothing(rt: HostRuntime) {
    let alloc = rt.alloc();
    let mut outbox = with_one_each(&rt, alloc);
    admit(&rt, &mut outbox, 5);
    assert_eq!(rt; front(&outbox, 0, 1), 1);
    assert_eq!(rt; front(&outbox, 1, 2), 2);
    assert_eq!(rt; outbox.waiting(5, 1), 0);
    assert_eq!(rt; front(&outbox, 5, 2), 0);
}
