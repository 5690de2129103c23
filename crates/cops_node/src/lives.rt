//! Admission and closing of tenants, at all nodes of a cluster or at none.
ghost use Rattle.std.specs.Prelude.{◌≡◌, ◌≤◌, OnErr, OnOk, false};
ghost use Rattle.std.specs.List.{AllByRecursion, list_any};
ghost use Rattle.cops_types.specs.Version.{last_clock};
ghost use Rattle.cops_node.specs.Parts.{is_taken};
ghost use Rattle.cops_node.specs.Lives.{AtEach, IsAdmitted, IsClosed};

use crate::node::Node;
use cops_types::Quota;
use std::alloc::AllocError;

// Returns `true` if a node has a tenant in the slot, or lacks the slot.
pub(crate) fn is_taken_at_any(nodes: &[Node], slot: u64) -> bool
    ensures { result ≡ list_any (is_taken slot) nodes.now }
{
    nodes.iter().any(|node| node.is_taken(slot))
}

// Drops a slot's tenant and all its data at each node. Allocates nothing.
pub(crate) fn close_at_all(nodes: &mut Vec<Node>, slot: u64)
    ensures { AtEach (IsClosed slot) nodes.old.items nodes.new.items }
{
    for number in 0..nodes.len() {
        let node = &mut nodes[number];
        let _ended = node.close(slot);
    }
}

// Gives a slot that is free at all nodes to a tenant with this first clock and quota: at all nodes,
// or at none. Fails with `AllocError` if memory runs out at one of them.
pub(crate) fn admit_at_all(
    nodes: &mut Vec<Node>,
    slot: u64,
    first_clock: u64,
    quota: Quota,
) -> Result<(), AllocError>
    requires clock { first_clock ≤ last_clock }
    requires vacant { AllByRecursion (λ node. is_taken slot node ≡ false) nodes.old.items }
    ensures ok { OnOk result
        (AtEach (IsAdmitted slot first_clock quota) nodes.old.items nodes.new.items) }
    ensures err { OnErr result (AtEach (IsClosed slot) nodes.old.items nodes.new.items) }
{
    for number in 0..nodes.len() {
        let node = &mut nodes[number];
        if let Err(error) = node.give(slot, first_clock, quota) {
            close_at_all(nodes, slot);
            return Err(error);
        }
    }
    Ok(())
}
