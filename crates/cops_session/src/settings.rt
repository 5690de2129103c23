/// The constants of a session: its tenant's slot and its data centre, the sizes of the cluster, and
/// the limits of its requests.
#[derive(Clone, Copy, Debug)]
pub struct Setting {
    pub slot: u64,
    pub dc: u64,
    pub data_centres: u64,
    pub shards: u64,
    pub trans_time: u64,
    pub restarts: u64,
    pub deps: u64,
}
