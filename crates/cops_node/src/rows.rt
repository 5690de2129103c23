//! The rows of an audit: compact calls and replies.
ghost use Rattle.cops_types.specs.Founds.{found_in};
ghost use Rattle.std.specs.Prelude.{◌≡◌, IfOk};
ghost use Rattle.cops_node.specs.Rows.{exchange_of};

use crate::{AuditEntry, NodeCall, NodeReply, Wanted};
use cops_types::{Entry, Found, Key, ShortKey, Version};
use std::alloc::{AllocError, Global};
use std::boxed::Box;
use std::marker::Model;

/// A call and its reply.
#[derive(Debug, Drop)]
pub struct Exchange {
    pub call: NodeCall,
    pub reply: NodeReply,
}

/// The compact form of a call and its reply. Rare ones, and those with a long key, have a block of
/// their own.
#[derive(Debug, Drop)]
pub enum Packing {
    PutStored(Entry),
    LatestFound(Entry),
    ExactFound(Entry),
    LatestAbsent(ShortKey),
    NotCome(ShortKey, Version),
    WasCommitted(ShortKey, Version),
    WasNotCommitted(ShortKey, Version),
    EntryPulled(u64, Entry),
    NothingPulled(u64),
    EntryCommitted(Entry),
    CommittedBefore(Entry),
    EntryOutOfOrder(Entry, Version),
    FrontAcked(u64, Version),
    FrontNotAcked(u64, Version),
    Collected(u64),
    InFull(Box<Exchange>),
}

/// A call and its reply in 32 bytes. It shares an entry with the entry's other owners. Contracts
/// see the call and the reply.
#[derive(Debug, Drop)]
pub(crate) struct PackedExchange {
    packing: Packing,
}

impl Model for PackedExchange {
    ghost use Rattle.cops_node.specs.declared.rows.Exchange.{Exchange};

    ghost Value = { Exchange };

    ghost use Rattle.cops_node.specs.Rows.{exchange_of};

    ghost view = { λ p. exchange_of p.packing };
}

/// One call in an audit, in 40 bytes. Contracts see the timestamp, the call and the reply.
#[derive(Debug, Drop)]
pub struct AuditRow {
    moment: u64,
    exchange: PackedExchange,
}

impl Model for AuditRow {
    ghost use Rattle.cops_model.specs.declared.calls.AuditEntry.{AuditEntry};

    ghost Value = { AuditEntry };

    ghost view = { λ r. record { moment = r.moment; call = r.exchange.call; reply = r.exchange.reply } };
}

const _: () = prove!(size_of::<AuditRow>() == 40);

// Returns the put of this entry.
fn put_of(alloc: Global, entry: &Entry) -> Result<NodeCall, AllocError>
    ensures { IfOk result
        (λ call. call ≡ NodeCall.Put entry.now.key entry.now.value entry.now.deps entry.now.near) }
{
    Ok(NodeCall::Put(
        entry.key(),
        entry.shared_value(alloc)?,
        entry.shared_deps(alloc)?,
        entry.shared_near(alloc)?,
    ))
}

// Returns the reply that the entry was found.
fn found_of(alloc: Global, entry: &Entry) -> Result<NodeReply, AllocError>
    ensures { IfOk result (λ reply. reply ≡ NodeReply.Found (found_in entry.now)) }
{
    Ok(NodeReply::Found(Found::of(entry.copy(alloc)?)))
}

impl PackedExchange {
    // Packs the put of an entry, which got the entry's version.
    pub(crate) fn stored(entry: Entry) -> Self
        ensures { result
            ≡ record { call = NodeCall.Put entry.key entry.value entry.deps entry.near; reply = NodeReply.Stored entry.version } }
    {
        PackedExchange {
            packing: Packing::PutStored(entry),
        }
    }

    // Packs a get of the greatest version of a key, which found the entry.
    pub(crate) fn found_latest(entry: Entry) -> Self
        ensures { result
            ≡ record { call = NodeCall.Get entry.key Wanted.Latest; reply = NodeReply.Found (found_in entry) } }
    {
        PackedExchange {
            packing: Packing::LatestFound(entry),
        }
    }

    // Packs a get of the entry's version, which found the entry.
    pub(crate) fn found_exactly(entry: Entry) -> Self
        ensures { result
            ≡ record { call = NodeCall.Get entry.key (Wanted.Exactly entry.version); reply = NodeReply.Found (found_in entry) } }
    {
        PackedExchange {
            packing: Packing::ExactFound(entry),
        }
    }

    // Packs a get of a key without a value.
    pub(crate) fn absent(alloc: Global, key: &Key) -> Result<Self, AllocError>
        ensures { IfOk result (λ packed. packed
            ≡ record { call = NodeCall.Get key.now Wanted.Latest; reply = NodeReply.Absent }) }
    {
        match ShortKey::of(key) {
            Some(short) => Ok(PackedExchange {
                packing: Packing::LatestAbsent(short),
            }),
            None => PackedExchange::in_full(
                alloc,
                NodeCall::Get(*key, Wanted::Latest),
                NodeReply::Absent,
            ),
        }
    }

    // Packs a get of a version that has not come.
    pub(crate) fn not_yet(alloc: Global, key: &Key, version: Version) -> Result<Self, AllocError>
        ensures { IfOk result (λ packed. packed
            ≡ record { call = NodeCall.Get key.now (Wanted.Exactly version); reply = NodeReply.NotYet }) }
    {
        match ShortKey::of(key) {
            Some(short) => Ok(PackedExchange {
                packing: Packing::NotCome(short, version),
            }),
            None => PackedExchange::in_full(
                alloc,
                NodeCall::Get(*key, Wanted::Exactly(version)),
                NodeReply::NotYet,
            ),
        }
    }

    // Packs a check whether the version was committed.
    pub(crate) fn checked(
        alloc: Global,
        key: &Key,
        version: Version,
        committed: bool,
    ) -> Result<Self, AllocError>
        ensures { IfOk result (λ packed. packed
            ≡ record { call = NodeCall.DepCheck key.now version; reply = NodeReply.Checked committed }) }
    {
        match ShortKey::of(key) {
            Some(short) => Ok(PackedExchange {
                packing: if committed {
                    Packing::WasCommitted(short, version)
                } else {
                    Packing::WasNotCommitted(short, version)
                },
            }),
            None => PackedExchange::in_full(
                alloc,
                NodeCall::DepCheck(*key, version),
                NodeReply::Checked(committed),
            ),
        }
    }

    // Packs a pull for a data centre, whose next entry this is.
    pub(crate) fn pulled(dc: u64, entry: Entry) -> Self
        ensures { result ≡ record { call = NodeCall.Pull dc; reply = NodeReply.Pulled entry } }
    {
        PackedExchange {
            packing: Packing::EntryPulled(dc, entry),
        }
    }

    // Packs a pull for a data centre without a next entry.
    pub(crate) fn nothing(dc: u64) -> Self
        ensures { result ≡ record { call = NodeCall.Pull dc; reply = NodeReply.Nothing } }
    {
        PackedExchange {
            packing: Packing::NothingPulled(dc),
        }
    }

    // Packs a commit that was made.
    pub(crate) fn committed(entry: Entry) -> Self
        ensures { result ≡ record { call = NodeCall.Commit entry; reply = NodeReply.Committed } }
    {
        PackedExchange {
            packing: Packing::EntryCommitted(entry),
        }
    }

    // Packs a commit that had been made before.
    pub(crate) fn already(entry: Entry) -> Self
        ensures { result ≡ record { call = NodeCall.Commit entry; reply = NodeReply.Already } }
    {
        PackedExchange {
            packing: Packing::CommittedBefore(entry),
        }
    }

    // Packs a commit that came before that of the preceding entry.
    pub(crate) fn out_of_order(entry: Entry, mark: Version) -> Self
        ensures { result
            ≡ record { call = NodeCall.Commit entry; reply = NodeReply.OutOfOrder mark } }
    {
        PackedExchange {
            packing: Packing::EntryOutOfOrder(entry, mark),
        }
    }

    // Packs an acknowledgement of the head.
    pub(crate) fn acked(dc: u64, version: Version) -> Self
        ensures { result ≡ record { call = NodeCall.Ack dc version; reply = NodeReply.Acked } }
    {
        PackedExchange {
            packing: Packing::FrontAcked(dc, version),
        }
    }

    // Packs an acknowledgement of an entry other than the head.
    pub(crate) fn not_front(dc: u64, version: Version) -> Self
        ensures { result ≡ record { call = NodeCall.Ack dc version; reply = NodeReply.NotFront } }
    {
        PackedExchange {
            packing: Packing::FrontNotAcked(dc, version),
        }
    }

    // Packs a collection that removed this many records.
    pub(crate) fn removed(count: u64) -> Self
        ensures { result ≡ record { call = NodeCall.Collect; reply = NodeReply.Removed count } }
    {
        PackedExchange {
            packing: Packing::Collected(count),
        }
    }

    // Packs any call and reply, with memory of their own.
    pub(crate) fn in_full(
        alloc: Global,
        call: NodeCall,
        reply: NodeReply,
    ) -> Result<Self, AllocError>
        ensures { IfOk result (λ packed. packed ≡ record { call = call; reply = reply }) }
    {
        Ok(PackedExchange {
            packing: Packing::InFull(Box::new(alloc, Exchange { call, reply })?),
        })
    }

    // Returns the call.
    fn call(&self, alloc: Global) -> Result<NodeCall, AllocError>
        ensures { IfOk result (λ call. call ≡ self.now.call) }
    {
        match &self.packing {
            Packing::PutStored(entry) => put_of(alloc, entry),
            Packing::LatestFound(entry) => Ok(NodeCall::Get(entry.key(), Wanted::Latest)),
            Packing::ExactFound(entry) => Ok(NodeCall::Get(
                entry.key(),
                Wanted::Exactly(entry.version()),
            )),
            Packing::LatestAbsent(key) => Ok(NodeCall::Get(key.key(), Wanted::Latest)),
            Packing::NotCome(key, version) => {
                Ok(NodeCall::Get(key.key(), Wanted::Exactly(*version)))
            }
            Packing::WasCommitted(key, version) => Ok(NodeCall::DepCheck(key.key(), *version)),
            Packing::WasNotCommitted(key, version) => Ok(NodeCall::DepCheck(key.key(), *version)),
            Packing::EntryPulled(dc, _) => Ok(NodeCall::Pull(*dc)),
            Packing::NothingPulled(dc) => Ok(NodeCall::Pull(*dc)),
            Packing::EntryCommitted(entry) => Ok(NodeCall::Commit(entry.copy(alloc)?)),
            Packing::CommittedBefore(entry) => Ok(NodeCall::Commit(entry.copy(alloc)?)),
            Packing::EntryOutOfOrder(entry, _) => Ok(NodeCall::Commit(entry.copy(alloc)?)),
            Packing::FrontAcked(dc, version) => Ok(NodeCall::Ack(*dc, *version)),
            Packing::FrontNotAcked(dc, version) => Ok(NodeCall::Ack(*dc, *version)),
            Packing::Collected(_) => Ok(NodeCall::Collect),
            Packing::InFull(exchange) => exchange.call.copy(alloc),
        }
    }

    // Returns the reply.
    fn reply(&self, alloc: Global) -> Result<NodeReply, AllocError>
        ensures { IfOk result (λ reply. reply ≡ self.now.reply) }
    {
        match &self.packing {
            Packing::PutStored(entry) => Ok(NodeReply::Stored(entry.version())),
            Packing::LatestFound(entry) => found_of(alloc, entry),
            Packing::ExactFound(entry) => found_of(alloc, entry),
            Packing::LatestAbsent(_) => Ok(NodeReply::Absent),
            Packing::NotCome(_, _) => Ok(NodeReply::NotYet),
            Packing::WasCommitted(_, _) => Ok(NodeReply::Checked(true)),
            Packing::WasNotCommitted(_, _) => Ok(NodeReply::Checked(false)),
            Packing::EntryPulled(_, entry) => Ok(NodeReply::Pulled(entry.copy(alloc)?)),
            Packing::NothingPulled(_) => Ok(NodeReply::Nothing),
            Packing::EntryCommitted(_) => Ok(NodeReply::Committed),
            Packing::CommittedBefore(_) => Ok(NodeReply::Already),
            Packing::EntryOutOfOrder(_, mark) => Ok(NodeReply::OutOfOrder(*mark)),
            Packing::FrontAcked(_, _) => Ok(NodeReply::Acked),
            Packing::FrontNotAcked(_, _) => Ok(NodeReply::NotFront),
            Packing::Collected(count) => Ok(NodeReply::Removed(*count)),
            Packing::InFull(exchange) => exchange.reply.copy(alloc),
        }
    }
}

impl AuditRow {
    // Returns the row of a call at a timestamp.
    pub(crate) fn new(moment: u64, exchange: PackedExchange) -> Self
        ensures { result
            ≡ record { moment = moment; call = exchange.call; reply = exchange.reply } }
    {
        AuditRow { moment, exchange }
    }

    /// Returns the timestamp as it was passed.
    pub fn moment(&self) -> u64
        ensures { result ≡ self.now.moment }
    {
        self.moment
    }

    /// Returns the compact call and reply, for reading in place.
    pub fn packing(&self) -> &Packing
        ensures { exchange_of result.now ≡ record { call = self.now.call; reply = self.now.reply } }
    {
        &self.exchange.packing
    }

    /// Returns the timestamp, the call and the reply in full. Values, lists and entries share their
    /// memory. Fails with `AllocError` if memory runs out.
    pub fn entry(&self, alloc: Global) -> Result<AuditEntry, AllocError>
        ensures { IfOk result (λ entry. entry ≡ self.now) }
    {
        Ok(AuditEntry {
            moment: self.moment,
            call: self.exchange.call(alloc)?,
            reply: self.exchange.reply(alloc)?,
        })
    }
}
