use cops_types::{Name, OpenTenants, Quota, RequestError, Tenant, Tenants};
use std::alloc::Global;
use std::process::Abort;
use uuid::Uuid;

const NONE: Quota = Quota {
    versions: 0,
    bytes: 0,
    outbox: 0,
    contexts: 0,
    deps: 0,
    actors: 0,
    audit: 0,
};

/// A tenant with a token that ends so.
fn tenant(rt: &impl Abort, name: &[u8], last: u8) -> Tenant {
    let mut token = [0; 16];
    token[15] = last;
    Tenant {
        name: Name::new(name).expect(rt, "a name"),
        token: Uuid::from_bytes(token),
        first_clock: 0,
        quota: NONE,
    }
}

fn admit(rt: &impl Abort, tenants: &mut OpenTenants, slot: u64, name: &[u8], last: u8) {
    assert!(rt; tenants.admit_at(slot, tenant(rt, name, last)).is_ok());
}

/// Two tenants, at slots 0 and 2.
fn two(rt: &impl Abort, alloc: Global) -> OpenTenants {
    let mut tenants = OpenTenants::new(alloc).expect(rt, "memory");
    admit(rt, &mut tenants, 0, b"acme", 1);
    admit(rt, &mut tenants, 2, b"beta", 2);
    tenants
}

#[test]
fn a_closed_slot_is_given_again(rt: HostRuntime) {
    let mut tenants = two(&rt, rt.alloc());
    assert!(&rt; tenants.close(0).is_ok());
    assert!(&rt; tenants.close(0).is_err());
    assert!(&rt; tenants.slot_of_name(b"acme").is_none());
    admit(&rt, &mut tenants, 0, b"acme", 1);
    assert!(&rt; tenants.slot_of_name(b"acme") == Some(0));
    drop(tenants);
}

/// Each allocation of an admission may fail. Then nothing is recorded of the tenant, and it can be
/// admitted again.
#[test]
fn admissions_under_want_of_memory(rt: HostRuntime) {
    let mut tenants = OpenTenants::new(rt.alloc()).expect(&rt, "memory");
    for last in 0u8..20 {
        let slot = last as u64;
        let name = [b'a' + last];
        if let Err(error) = tenants.admit_at(slot, tenant(&rt, &name, last)) {
            assert!(&rt; error == RequestError::OutOfMemory);
            assert!(&rt; tenants.len() as u64 == slot);
            assert!(&rt; tenants.slot_of_name(&name).is_none());
            admit(&rt, &mut tenants, slot, &name, last);
        }
        assert!(&rt; tenants.slot_of_name(&name) == Some(slot));
        assert!(&rt; tenants.len() as u64 == slot + 1);
    }
    drop(tenants);
}

/// The tenants of a head, made again if memory ran out.
fn tenants_of(rt: &impl Abort, alloc: Global, head: &Tenants) -> OpenTenants {
    match OpenTenants::of(alloc, head) {
        Ok(tenants) => tenants,
        Err(_) => OpenTenants::of(alloc, head).expect(rt, "memory"),
    }
}

#[test]
fn a_heads_tenants_under_want_of_memory(rt: HostRuntime) {
    let mut head = Tenants::new(rt.alloc());
    head.push(tenant(&rt, b"acme", 1)).expect(&rt, "memory");
    let tenants = tenants_of(&rt, rt.alloc(), &head);
    assert!(&rt; tenants.slot_of_name(b"acme") == Some(0));
    drop(tenants);
    drop(head);
}
