//! Nodes whose tenants come and go between calls.
ghost use Rattle.std.specs.Prelude.{◌≡◌, replicate};
ghost use Rattle.cops_node.specs.Hosting.{life_at, unknown_tenant};
ghost use Rattle.cops_node.specs.Parts.{MOST_SLOTS};

use crate::{Home, Node, NodeCall, NodeReply};
use cops_types::{Fault, Machine, Tenant};
use std::alloc::AllocError;
use std::marker::Model;

/// The most slots of a node.
const MOST_SLOTS: usize = 64;

/// A call to a slot of a node: from a session or a carrier of its tenant, or from the host.
///
/// A life is the time from an admission of a tenant to its close. Its number tells the slot's tenants apart: a call of
/// another life than the present one gets `UnknownTenant`, and changes nothing.
#[derive(Debug, Drop)]
pub enum SlotCall {
    /// A call of the slot's tenant in the life of this number.
    Own { life: u64, call: NodeCall },
    /// Gives the slot to this tenant, and this number to its life. A node ignores its name and token.
    Admit { life: u64, tenant: Tenant },
    /// Drops the slot's tenant and all its data on the node.
    Close,
}

/// The reply to a call of a slot.
#[derive(Debug, Drop)]
pub enum SlotReply {
    /// The node's reply to a call of the tenant.
    Own(NodeReply),
    /// The slot now belongs to the tenant.
    Admitted,
    /// The slot no longer has a tenant.
    Closed,
    /// The reason why the host's call did nothing.
    Refused(Fault),
}

/// A node whose tenants come and go. For a gate each admission and closing is one turn, as a call
/// is.
#[derive(Drop)]
pub struct HostedNode {
    node: Node,
    /// The number of each slot's latest life.
    lives: [u64; MOST_SLOTS],
}

impl Model for HostedNode {
    ghost use Rattle.cops_node.specs.Hosting.{Hosted};

    ghost Value = { Hosted };

    ghost view = { λ h. record { node = h.node; lives = h.lives } };
}

impl HostedNode {
    /// Wraps the node, with its tenants. They are in their slots' lives 0.
    pub fn of(node: Node) -> Self
        ensures node { result.node ≡ node }
        ensures lives { result.lives ≡ replicate MOST_SLOTS 0 }
    {
        HostedNode {
            node,
            lives: [0; MOST_SLOTS],
        }
    }

    /// Returns the node.
    pub fn node(&self) -> &Node
        ensures { result.now ≡ self.now.node }
    {
        &self.node
    }

    /// Returns the node alone.
    pub fn into_node(self) -> Node
        ensures { result ≡ self.node }
    {
        let HostedNode { node, lives: _ } = self;
        node
    }

    // Returns the number of the slot's latest life.
    fn life(&self, slot: u64) -> u64
        ensures { result ≡ life_at slot self.now }
    {
        match self.lives.get(slot as usize) {
            Some(life) => *life,
            None => 0,
        }
    }
}

// Drops a call of another life than the slot's, and returns its reply. This is a function of its own, so that a call of the
// present life is copied at once. A call that the same function may drop is copied part by part.
#[cold]
#[inline(never)]
fn refuse_other_life(_call: NodeCall) -> SlotReply
    ensures { result ≡ unknown_tenant }
{
    SlotReply::Own(NodeReply::Refused(Fault::UnknownTenant))
}

impl Machine for HostedNode {
    ghost use Rattle.cops_node.specs.Hosting.{FitsSlot, IsSlotTurn, host_in};
    ghost use Rattle.cops_node.specs.Lacking.{MayLackAtSlot};

    type Call = SlotCall;

    type Reply = SlotReply;

    /// The node without its tenants.
    type Place = Home;

    ghost place = { host_in };

    ghost fits = { FitsSlot };

    ghost turns = { IsSlotTurn };

    ghost may_lack = { MayLackAtSlot };

    #[inline(always)]
    fn turn(&mut self, slot: u64, moment: u64, call: SlotCall) -> Result<SlotReply, AllocError> {
        match call {
            SlotCall::Own { life, call } => {
                if life != self.life(slot) {
                    return Ok(refuse_other_life(call));
                }
                Ok(SlotReply::Own(self.node.turn(slot, moment, call)?))
            }
            SlotCall::Admit { life, tenant } => {
                if self.node.is_taken(slot) {
                    return Ok(SlotReply::Refused(Fault::NoSlot));
                }
                self.node.give(slot, tenant.first_clock, tenant.quota)?;
                self.lives[slot as usize] = life;
                Ok(SlotReply::Admitted)
            }
            SlotCall::Close => match self.node.close(slot) {
                Ok(()) => Ok(SlotReply::Closed),
                Err(fault) => Ok(SlotReply::Refused(fault)),
            },
        }
    }
}
