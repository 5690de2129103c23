//! The reply to a call, and its audit record.
ghost use Rattle.std.specs.Prelude.{◌≡◌, IfOk};

use crate::rows::PackedExchange;
use crate::{NodeCall, NodeReply};
use cops_types::{Fault, Key, Version};
use std::alloc::{AllocError, Global};

// The reply to the caller, and the call with its reply for the audit.
#[derive(Debug, Drop)]
pub(crate) struct Answered {
    pub(crate) told: NodeReply,
    pub(crate) kept: PackedExchange,
}

impl Answered {
    // Refuses the call.
    pub(crate) fn refused(alloc: Global, call: NodeCall, fault: Fault) -> Result<Self, AllocError>
        ensures told { IfOk result (λ answered. answered.told ≡ NodeReply.Refused fault) }
        ensures kept { IfOk result
            (λ answered. answered.kept ≡ record { call = call; reply = answered.told }) }
    {
        Ok(Answered {
            told: NodeReply::Refused(fault),
            kept: PackedExchange::in_full(alloc, call, NodeReply::Refused(fault))?,
        })
    }

    // Replies whether the version was committed.
    pub(crate) fn checked(
        alloc: Global,
        key: &Key,
        version: Version,
        committed: bool,
    ) -> Result<Self, AllocError>
        ensures told { IfOk result (λ answered. answered.told ≡ NodeReply.Checked committed) }
        ensures kept { IfOk result (λ answered. answered.kept
            ≡ record { call = NodeCall.DepCheck key.now version; reply = answered.told }) }
    {
        Ok(Answered {
            told: NodeReply::Checked(committed),
            kept: PackedExchange::checked(alloc, key, version, committed)?,
        })
    }

    // Replies how many records were removed.
    pub(crate) fn removed(count: u64) -> Self
        ensures told { result.told ≡ NodeReply.Removed count }
        ensures kept { result.kept ≡ record { call = NodeCall.Collect; reply = result.told } }
    {
        Answered {
            told: NodeReply::Removed(count),
            kept: PackedExchange::removed(count),
        }
    }
}
