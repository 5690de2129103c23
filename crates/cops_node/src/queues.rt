//! The replies of a node about its queues.
ghost use Rattle.std.specs.Prelude.{◌≡◌, ◌<◌, length, IfOk};
ghost use Rattle.cops_model.specs.Step.{reply_pull};
ghost use Rattle.cops_outbox.specs.Queues.{queue_of};
ghost use Rattle.cops_model.specs.SoloNode.{front};

use crate::answered::Answered;
use crate::rows::PackedExchange;
use crate::{NodeCall, NodeReply};
use cops_outbox::{Ack, Outbox};
use cops_types::Version;
use std::alloc::{AllocError, Global};

// Handles a call `Pull`.
#[inline(always)]
pub(crate) fn pull(
    alloc: Global,
    outbox: &Outbox,
    slot: usize,
    dc: u64,
) -> Result<Answered, AllocError>
    requires slot { slot < outbox.now.tenants }
    requires dc { dc < length outbox.now.queues }
    ensures told { IfOk result
        (λ answered. answered.told ≡ reply_pull (front (queue_of slot dc outbox.now))) }
    ensures kept { IfOk result
        (λ answered. answered.kept ≡ record { call = NodeCall.Pull dc; reply = answered.told }) }
{
    match outbox.front_of(slot, dc as usize) {
        Some(entry) => Ok(Answered {
            told: NodeReply::Pulled(entry.copy(alloc)?),
            kept: PackedExchange::pulled(dc, entry.copy(alloc)?),
        }),
        None => Ok(Answered {
            told: NodeReply::Nothing,
            kept: PackedExchange::nothing(dc),
        }),
    }
}

// Returns the answer to a call `Ack`.
pub(crate) fn acknowledged(answer: Ack, dc: u64, version: Version) -> Answered
    ensures acked { answer ≡ Ack.Acked → result.told ≡ NodeReply.Acked }
    ensures not_front { answer ≡ Ack.NotFront → result.told ≡ NodeReply.NotFront }
    ensures kept { result.kept ≡ record { call = NodeCall.Ack dc version; reply = result.told } }
{
    match answer {
        Ack::Acked => Answered {
            told: NodeReply::Acked,
            kept: PackedExchange::acked(dc, version),
        },
        Ack::NotFront => Answered {
            told: NodeReply::NotFront,
            kept: PackedExchange::not_front(dc, version),
        },
    }
}
