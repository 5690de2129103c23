//! The entries that wait for other data centres.

mod queues;
