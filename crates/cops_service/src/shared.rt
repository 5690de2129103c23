//! The state that the threads of a service share, and the states of the carrier and the collector.

use crate::cluster::Cluster;
use crate::dues::Collecting;
use crate::notes::{Notes, Stream};
use crate::reports::Totals;
use crate::serving::Listening;
use crate::waiting::Waiting;
use cops_types::{Config, Machine};
use std::alloc::Global;

/// The state that all threads of a service share.
#[derive_where(Clone, Copy)]
pub(crate) struct Shared<'a, R, L, M: Machine> {
    pub(crate) rt: &'a R,
    pub(crate) alloc: Global,
    pub(crate) config: &'a Config,
    pub(crate) cluster: &'a Cluster<M>,
    pub(crate) listening: Listening<'a, L>,
    pub(crate) notes: &'a Notes,
    pub(crate) totals: &'a Totals,
}

/// The carrier's state: the streams that it has taken from the list, and those that wait.
#[derive(Drop)]
pub(crate) struct Carrying {
    pub(crate) streams: Vec<Stream>,
    pub(crate) waiting: Waiting,
}

/// The states of the carrier and the collector.
#[derive(Drop)]
pub(crate) struct Helpers {
    pub(crate) carrying: Carrying,
    pub(crate) collecting: Collecting,
}
