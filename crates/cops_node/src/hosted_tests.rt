//! Tenants that come to a node and go in turns of a machine.
use crate::test_nodes::{QUOTA, Short, in_short, one_of_two, put, refused, tenant};
use crate::{HostedNode, SlotCall, SlotReply};
use cops_types::{Fault, Machine, Version};
use std::alloc::Global;
use std::process::Abort;

fn reply_in_short(reply: &SlotReply) -> Short {
    match reply {
        SlotReply::Own(reply) => in_short(reply),
        SlotReply::Admitted => ("admitted", 0),
        SlotReply::Closed => ("closed", 0),
        SlotReply::Refused(fault) => refused(*fault),
    }
}

/// The host gives the slot to beta, in this life.
fn comes(rt: &impl Abort, node: &mut HostedNode, slot: u64, life: u64, said: Short) {
    let beta = tenant(rt, b"beta", 2, 0, QUOTA);
    assert!(rt; beta.first_clock <= Version::LAST_CLOCK);
    let reply = node
        .turn(slot, 0, SlotCall::Admit { life, tenant: beta })
        .expect(rt, "memory");
    assert_eq!(rt; reply_in_short(&reply), said);
}

/// The host closes the slot.
fn goes(rt: &impl Abort, node: &mut HostedNode, slot: u64, said: Short) {
    let reply = node.turn(slot, 0, SlotCall::Close).expect(rt, "memory");
    assert_eq!(rt; reply_in_short(&reply), said);
}

/// A tenant of this life of slot 2 puts x.
fn puts(rt: &impl Abort, alloc: Global, node: &mut HostedNode, life: u64, said: Short) {
    let call = put(rt, alloc, b"x");
    assert!(rt; node.node().fits(&call));
    let reply = node
        .turn(2, 0, SlotCall::Own { life, call })
        .expect(rt, "memory");
    assert_eq!(rt; reply_in_short(&reply), said);
}

#[test]
fn a_slot_has_one_tenant_after_another(rt: HostRuntime) {
    let alloc = rt.alloc();
    let mut node = HostedNode::of(one_of_two(&rt, alloc, 0, 0, QUOTA));
    let unknown = refused(Fault::UnknownTenant);
    puts(&rt, alloc, &mut node, 0, unknown);
    comes(&rt, &mut node, 2, 7, ("admitted", 0));
    puts(&rt, alloc, &mut node, 7, ("stored", 65536));
    comes(&rt, &mut node, 2, 8, refused(Fault::NoSlot));
    goes(&rt, &mut node, 2, ("closed", 0));
    puts(&rt, alloc, &mut node, 7, unknown);
    goes(&rt, &mut node, 2, unknown);
    comes(&rt, &mut node, 2, 8, ("admitted", 0));
    puts(&rt, alloc, &mut node, 8, ("stored", 65536));
}

#[test]
fn no_call_of_an_earlier_life_reaches_a_later_one(rt: HostRuntime) {
    let alloc = rt.alloc();
    let mut node = HostedNode::of(one_of_two(&rt, alloc, 0, 0, QUOTA));
    let unknown = refused(Fault::UnknownTenant);
    comes(&rt, &mut node, 2, 7, ("admitted", 0));
    goes(&rt, &mut node, 2, ("closed", 0));
    comes(&rt, &mut node, 2, 8, ("admitted", 0));
    puts(&rt, alloc, &mut node, 7, unknown);
    puts(&rt, alloc, &mut node, 8, ("stored", 65536));
}

#[test]
fn the_host_is_refused_a_65th_slot(rt: HostRuntime) {
    let mut node = HostedNode::of(one_of_two(&rt, rt.alloc(), 0, 0, QUOTA));
    comes(&rt, &mut node, 64, 1, refused(Fault::NoSlot));
    goes(&rt, &mut node, 64, refused(Fault::UnknownTenant));
}
