use cops_types::{Deps, Entry, Fault, Found, Key, Near, Value, Version};

/// A node, by its data centre and its shard.
#[derive(Clone, Copy, Debug)]
pub struct NodeId {
    pub dc: u64,
    pub shard: u64,
}

/// The version of a key to read.
#[derive(Clone, Copy, Debug)]
pub enum Wanted {
    /// The greatest version.
    Latest,
    /// Exactly this version.
    Exactly(Version),
}

/// A call from a session or a carrier to a node.
#[derive(Debug, Drop)]
pub enum NodeCall {
    /// Reads what is stored under the key.
    Get(Key, Wanted),
    /// Stores the value under a new version of the key; the put depends on these pairs.
    Put(Key, Value, Deps, Near),
    /// Asks if this version of the key has been committed here.
    DepCheck(Key, Version),
    /// Reads the next entry for this data centre.
    Pull(u64),
    /// Stores an entry from another data centre.
    Commit(Entry),
    /// Acknowledges that this data centre has committed the entry of this version.
    Ack(u64, Version),
    /// Removes records that have been stale for too long.
    Collect,
}

/// A node's reply.
#[derive(Debug, Drop)]
pub enum NodeReply {
    /// The version, its value and its dependencies.
    Found(Found),
    /// The key has no value.
    Absent,
    /// The version was here and has been collected; carries the node's `now`.
    Gone(u64),
    /// The version has not arrived here.
    NotYet,
    /// The put has this version.
    Stored(Version),
    /// `true` if the version has been committed.
    Checked(bool),
    /// The head of the queue.
    Pulled(Entry),
    /// The queue is empty.
    Nothing,
    /// The entry is stored.
    Committed,
    /// The entry was committed before.
    Already,
    /// The entry before it is missing; carries the last committed version of that origin.
    OutOfOrder(Version),
    /// The head was removed.
    Acked,
    /// The head has another version, or the queue is empty.
    NotFront,
    /// The number of removed records.
    Removed(u64),
    /// The reason why nothing was done.
    Refused(Fault),
}

/// One call in the audit: its timestamp as passed, the call and the reply.
#[derive(Debug, Drop)]
pub struct AuditEntry {
    pub moment: u64,
    pub call: NodeCall,
    pub reply: NodeReply,
}
