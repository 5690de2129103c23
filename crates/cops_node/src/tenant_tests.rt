//! Tenants that come to a node and go.
use crate::test_nodes::{QUOTA, admit, latest, refused, says, tenant, with_acme_alone};
use cops_types::{Fault, Quota, RequestError};

#[test]
fn a_slot_without_a_tenant(rt: HostRuntime) {
    let alloc = rt.alloc();
    let mut node = with_acme_alone(&rt, alloc);
    assert!(rt; admit(&rt, &mut node, 0) == Err(RequestError::Refused(Fault::NoSlot)));
    says(
        &rt,
        &mut node,
        1,
        latest(&rt, b"x"),
        refused(Fault::UnknownTenant),
    );
    let acme = tenant(&rt, b"acme", 1, 0, QUOTA);
    assert!(rt; node.opened_as(0, &acme));
    assert!(rt; !node.opened_as(1, &acme));
}

#[test]
fn a_tenant_is_known_by_clock_and_quota(rt: HostRuntime) {
    let node = with_acme_alone(&rt, rt.alloc());
    assert!(rt; !node.opened_as(0, &tenant(&rt, b"acme", 1, 1, QUOTA)));
    let few = Quota {
        versions: 99,
        ..QUOTA
    };
    assert!(rt; !node.opened_as(0, &tenant(&rt, b"acme", 1, 0, few)));
    assert!(rt; node.opened_as(0, &tenant(&rt, b"beta", 2, 0, QUOTA)));
}

#[test]
fn there_are_64_slots(rt: HostRuntime) {
    let mut node = with_acme_alone(&rt, rt.alloc());
    assert!(rt; admit(&rt, &mut node, 64) == Err(RequestError::Refused(Fault::NoSlot)));
    assert!(rt; admit(&rt, &mut node, 63).is_ok());
    assert!(rt; node.close(64) == Err(Fault::UnknownTenant));
}
