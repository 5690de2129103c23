//! The tasks of the threads of a service whose tenants come and go, and the thread that follows its host.
ghost use Rattle.std.specs.Prelude.{◌≡◌, ◌<◌, ◌⊎◌, ◌∷◌, ◌++◌, ⊤, [], length, IfOk, IfSome, IsSomeAnd};
ghost use Rattle.std.specs.List.{AllByRecursion};
ghost use Rattle.std.specs.Thread.{IsSend, IsSync};
ghost use Rattle.cops_model.specs.MainTheorem.{with_tenant_alone};
ghost use Rattle.cops_service.specs.Admitted.{ShowsLife};
ghost use Rattle.cops_service.specs.Gates.{HasSeenMore, IsNewSeatOf, openings};
ghost use Rattle.cops_service.specs.HostedCrews.{CarriesLives, CollectsLives};
ghost use Rattle.cops_service.specs.LifeCrews.{AreOfHosts, AreOfLifeCrew, ConversesInLife, FollowsLines, IsHostedFor, ServesInLife, ServesLives};
ghost use Rattle.cops_service.specs.SeatsDone.{HasSinceDone};

use crate::accepting::Accepted;
use crate::ahead::Ahead;
use crate::carrying_lives::{carry_lives, collect_lives};
use crate::clients::serve_watched;
use crate::cluster::{Cluster, ServiceSeat};
use crate::dues::Collecting;
use crate::following::follow_each;
use crate::hellos::{Opened, open_line};
use crate::host_lines::{Batch, HostLines};
use crate::hosted_desk::{HostedDesk, LifeDesk};
use crate::lines::Line;
use crate::living::LivingDesk;
use crate::reports::{HostReports, Reports};
use crate::residents::{Resident, Residents, Site};
use crate::roster::Roster;
use crate::seated::Crew;
use crate::shared::{Carrying, Helpers, Shared};
use crate::tasks::{Finished, Gathered, Job, Task, accept_and_serve, serve_helped};
use crate::tenant_host::TenantHost;
use crate::threads::conclude;
use crate::watching::Stay;
use cops_gate::ClusterSeat;
use cops_node::HostedNode;
use cops_types::{Config, RequestError, Tenant, Tenants};
use cops_wire::{Ended, Moments};
use crossbeam_channel::{Receiver, Sender};
use std::alloc::{AllocError, Global};
use std::snapshot::Snapshot;
use std::sync::Wait;
use std::thread;
use std::thread::{Promise, Threads};
use std::time::Clock;

/// The state that all threads share.
pub(crate) struct Together<'a, R, L, S: Site> {
    pub(crate) shared: Shared<'a, R, L, HostedNode>,
    pub(crate) residents: &'a Residents<S>,
    pub(crate) lines: &'a HostLines,
    pub(crate) ghost site: { (shared.config.now ≡ S.config) × (shared.cluster.now ≡ S.cluster) },
}

impl<R, L, S: Site> Clone for Together<'_, R, L, S> {
    ghost is_clone = { λ together copy. copy ≡ together };

    ghost is_infallible = { λ _. ⊤ };

    fn clone(&self) -> Result<Self, AllocError> {
        Ok(*self)
    }
}

impl<R, L, S: Site> Copy for Together<'_, R, L, S> {}

/// The results of a service's threads, or none if a worker couldn't be started; and the tenants that are open then.
#[derive(Drop)]
pub(crate) struct Left {
    pub(crate) finished: Option<Finished<ClusterSeat<HostedNode>>>,
    pub(crate) roster: Roster,
}

impl Gathered<ClusterSeat<HostedNode>> for Left {
    ghost adds = { λ before seat after. (after.roster ≡ before.roster) × IfSome after.finished (λ f. IsSomeAnd before.finished (λ g. f.seats.items ≡ g.seats.items ++ seat ∷ [])) };

    fn add(self, seat: ClusterSeat<HostedNode>) -> Result<Left, AllocError>
        ensures { IfOk result (λ left. (left.roster ≡ self.roster) × IfSome left.finished
            (λ f. IsSomeAnd self.finished (λ g. f.seats.items ≡ g.seats.items ++ seat ∷ []))) }
    {
        let Left { finished, roster } = self;
        let Some(finished) = finished else {
            return Ok(Left {
                finished: None,
                roster,
            });
        };
        let finished = Some(finished.add(seat)?);
        Ok(Left { finished, roster })
    }
}

// ---- workers

// Returns the configuration of a cluster in which a tenant is alone.
fn config_alone(alloc: Global, config: &Config, tenant: Tenant) -> Result<Config, AllocError>
    ensures { IfOk result (λ alone. alone ≡ with_tenant_alone config.now tenant) }
{
    let mut tenants = Tenants::new(alloc);
    tenants.push(tenant)?;
    Ok(Config {
        data_centres: config.data_centres,
        shards: config.shards,
        trans_time: config.trans_time,
        restarts: config.restarts,
        tenants,
    })
}

// Returns the configuration of a cluster without tenants.
fn config_of_none(alloc: Global, config: &Config) -> Config
    ensures { result ≡ record config.now { tenants = [] } }
{
    Config {
        data_centres: config.data_centres,
        shards: config.shards,
        trans_time: config.trans_time,
        restarts: config.restarts,
        tenants: Tenants::new(alloc),
    }
}

// Serves a client, from whom these bytes were read, in the life of its tenant.
fn serve_resident<R: Wait + Clock, L, T: Moments, S: Site>(
    together: Together<'_, R, L, S>,
    line: &Line<'_, R>,
    bytes: &[u8],
    resident: Resident,
    nodes: &mut LivingDesk<'_, R>,
    moments: &mut T,
) -> Result<Ended, RequestError>
    ensures config { nodes.new.config.now ≡ nodes.old.config.now }
    ensures desk { (nodes.new.nodes.desk.cluster.now ≡ nodes.old.nodes.desk.cluster.now)
        × (nodes.new.nodes.desk.seat.ghost_name ≡ nodes.old.nodes.desk.seat.ghost_name) }
    ensures account { nodes.new.nodes.desk.seat.now.account
        ≡ nodes.old.nodes.desk.seat.now.account }
    ensures serves { (nodes.new.nodes.desk.seat.now ≡ nodes.old.nodes.desk.seat.now)
        × (moments.new ≡ moments.old)
        ⊎ ConversesInLife nodes.old.config.now nodes.old.nodes.desk.cluster.now T.Gives
        resident.life resident.tenant
        (nodes.old.nodes.desk.seat.now, moments.old) (nodes.new.nodes.desk.seat.now, moments.new) }
{
    let config = config_alone(together.shared.alloc, nodes.config, resident.tenant)?;
    let life = resident.life;
    nodes.turn_to(life.slot, life.number);
    let stay = Stay::new(together.shared.rt, together.residents, Some(life));
    serve_watched(
        together.shared.alloc,
        &config,
        line,
        bytes,
        stay,
        nodes,
        moments,
    )
}

// Refuses the greeting of a client that names no tenant.
fn refuse_stranger<R: Wait + Clock, L, T: Moments, S: Site>(
    together: Together<'_, R, L, S>,
    line: &Line<'_, R>,
    bytes: &[u8],
    nodes: &mut LivingDesk<'_, R>,
    moments: &mut T,
) -> Result<Ended, RequestError>
    ensures config { nodes.new.config.now ≡ nodes.old.config.now }
    ensures desk { (nodes.new.nodes.desk.cluster.now ≡ nodes.old.nodes.desk.cluster.now)
        × (nodes.new.nodes.desk.seat.ghost_name ≡ nodes.old.nodes.desk.seat.ghost_name) }
    ensures same { (nodes.new.nodes.desk.seat.now ≡ nodes.old.nodes.desk.seat.now)
        × (moments.new ≡ moments.old) }
{
    let config = config_of_none(together.shared.alloc, nodes.config);
    let stay = Stay::new(together.shared.rt, together.residents, None);
    serve_watched(
        together.shared.alloc,
        &config,
        line,
        bytes,
        stay,
        nodes,
        moments,
    )
}

// Returns the tenant that a client's greeting names, in its life. The desk's seat then sees whose life it is.
#[tactic(auto, using(crate::proofs::Admitted::seen_the_same))]
fn resident_of<R: Wait, L, S: Site>(
    together: Together<'_, R, L, S>,
    opened: &Opened,
    nodes: &mut LivingDesk<'_, R>,
) -> Option<Resident>
    requires site { nodes.old.nodes.desk.cluster.now ≡ S.cluster }
    ensures config { nodes.new.config.now ≡ nodes.old.config.now }
    ensures desk { (nodes.new.nodes.desk.cluster.now ≡ nodes.old.nodes.desk.cluster.now)
        × (nodes.new.nodes.desk.seat.ghost_name ≡ nodes.old.nodes.desk.seat.ghost_name) }
    ensures more { HasSeenMore nodes.old.nodes.desk.seat.now nodes.new.nodes.desk.seat.now }
    ensures shown { IfSome result (λ resident. ShowsLife S.config S.cluster resident.life
        resident.tenant nodes.new.nodes.desk.seat.now.history) }
{
    let Some(token) = &opened.token else {
        return None;
    };
    let desk = &mut nodes.nodes.desk;
    together
        .residents
        .greet(together.shared.rt, desk.cluster, desk.seat, token)
}

// Serves a client in the life of the tenant that it names. The tenant is looked up once its greeting is there.
fn serve_life<R: Wait + Clock, L, T: Moments, S: Site>(
    together: Together<'_, R, L, S>,
    line: &Line<'_, R>,
    nodes: &mut LivingDesk<'_, R>,
    moments: &mut T,
) -> Result<Ended, RequestError>
    requires site { (nodes.old.config.now ≡ S.config)
        × (nodes.old.nodes.desk.cluster.now ≡ S.cluster) }
    ensures config { nodes.new.config.now ≡ nodes.old.config.now }
    ensures desk { (nodes.new.nodes.desk.cluster.now ≡ nodes.old.nodes.desk.cluster.now)
        × (nodes.new.nodes.desk.seat.ghost_name ≡ nodes.old.nodes.desk.seat.ghost_name) }
    ensures account { nodes.new.nodes.desk.seat.now.account
        ≡ nodes.old.nodes.desk.seat.now.account }
    ensures serves { ServesInLife nodes.old.config.now nodes.old.nodes.desk.cluster.now T.Gives
        (nodes.old.nodes.desk.seat.now, moments.old) (nodes.new.nodes.desk.seat.now, moments.new) }
{
    let opened = open_line(together.shared.alloc, line)?;
    let bytes = opened.bytes.as_slice();
    match resident_of(together, &opened, nodes) {
        Some(resident) => serve_resident(together, line, bytes, resident, nodes, moments),
        None => refuse_stranger(together, line, bytes, nodes, moments),
    }
}

// Serves a connection. One that fails ends alone.
fn serve_stream<R: Wait + Clock, L: Reports, T: Moments, S: Site>(
    together: Together<'_, R, L, S>,
    nodes: &mut LivingDesk<'_, R>,
    accepted: &Accepted,
    moments: &mut T,
)
    requires site { (nodes.old.config.now ≡ S.config)
        × (nodes.old.nodes.desk.cluster.now ≡ S.cluster) }
    ensures config { nodes.new.config.now ≡ nodes.old.config.now }
    ensures desk { (nodes.new.nodes.desk.cluster.now ≡ nodes.old.nodes.desk.cluster.now)
        × (nodes.new.nodes.desk.seat.ghost_name ≡ nodes.old.nodes.desk.seat.ghost_name) }
    ensures account { nodes.new.nodes.desk.seat.now.account
        ≡ nodes.old.nodes.desk.seat.now.account }
    ensures serves { ServesInLife nodes.old.config.now nodes.old.nodes.desk.cluster.now T.Gives
        (nodes.old.nodes.desk.seat.now, moments.old) (nodes.new.nodes.desk.seat.now, moments.new) }
{
    let line = Line::new(
        together.shared.rt,
        &accepted.stream,
        together.shared.listening.stop,
        together.shared.listening.options.idle,
    );
    let ended = serve_life(together, &line, nodes, moments);
    // Closing reads on. So the state is taken before.
    let course = line.course();
    line.close();
    conclude(
        together.shared.totals,
        together.shared.listening.reports,
        &accepted.peer,
        line.tally(),
        course,
        &ended,
    );
}

// Serves connections until none follows.
fn serve_lives<R: Wait + Clock, L: Reports, T: Moments, S: Site>(
    together: Together<'_, R, L, S>,
    nodes: &mut LivingDesk<'_, R>,
    streams: &Receiver<Accepted, Global>,
    moments: &mut T,
)
    requires site { (nodes.old.config.now ≡ S.config)
        × (nodes.old.nodes.desk.cluster.now ≡ S.cluster) }
    ensures config { nodes.new.config.now ≡ nodes.old.config.now }
    ensures desk { (nodes.new.nodes.desk.cluster.now ≡ nodes.old.nodes.desk.cluster.now)
        × (nodes.new.nodes.desk.seat.ghost_name ≡ nodes.old.nodes.desk.seat.ghost_name) }
    ensures account { nodes.new.nodes.desk.seat.now.account
        ≡ nodes.old.nodes.desk.seat.now.account }
    ensures serves { ServesLives nodes.old.config.now nodes.old.nodes.desk.cluster.now T.Gives
        moments.old nodes.old.nodes.desk.seat.now nodes.new.nodes.desk.seat.now }
{
    for _ in together.shared.rt.forever() {
        let Ok(accepted) = streams.recv(together.shared.rt) else {
            return;
        };
        serve_stream(together, nodes, &accepted, moments);
    }
}

/// A worker's task: serves connections until none follows.
#[derive_where(Clone, Copy; T)]
struct Serves<'a, 'b, R, L, T, S: Site> {
    together: Together<'a, R, L, S>,
    streams: &'b Receiver<Accepted, Global>,
    moments: T,
}

impl<R, L, T, S> Task<ClusterSeat<HostedNode>> for Serves<'_, '_, R, L, T, S>
where
    R: Wait + Clock,
    L: Reports,
    T: Moments + Copy,
    S: Site,
{
    ghost is_ready = { λ it. IsHostedFor it.together.shared.config.now it.together.shared.cluster.now };

    ghost is_new = { λ it seat. IsNewSeatOf it.together.shared.cluster.now seat };

    ghost is_done = { λ it seat. HasSinceDone it.together.shared.cluster.now (ServesLives it.together.shared.config.now it.together.shared.cluster.now T.Gives it.moments) seat };

    fn run(self, seat: ClusterSeat<HostedNode>) -> ClusterSeat<HostedNode>
        requires ready { IsHostedFor self.together.shared.config.now
            self.together.shared.cluster.now }
        requires new { IsNewSeatOf self.together.shared.cluster.now seat }
        ensures { HasSinceDone self.entry.together.shared.cluster.now
            (ServesLives self.entry.together.shared.config.now
            self.entry.together.shared.cluster.now T.Gives self.entry.moments) result }
    {
        let Serves {
            together,
            streams,
            mut moments,
        } = self;
        let mut seat = ServiceSeat::of(seat);
        let shared = together.shared;
        let mut nodes = LivingDesk {
            config: shared.config,
            nodes: LifeDesk {
                desk: HostedDesk::new(shared.rt, shared.cluster, &mut seat),
                slot: 0,
                life: 0,
            },
            notes: shared.notes,
            ahead: Ahead::new(shared.alloc),
        };
        serve_lives(together, &mut nodes, streams, &mut moments);
        seat.into_seat()
    }
}

// ---- the threads that carry and collect

/// The carrier's task: carries until no stream follows.
#[derive(Drop)]
struct Carries<'a, R, L, T> {
    shared: Shared<'a, R, L, HostedNode>,
    carrying: Carrying,
    moments: T,
}

impl<R: Wait + Clock, L, T: Moments + Copy> Task<ClusterSeat<HostedNode>> for Carries<'_, R, L, T> {
    ghost is_ready = { λ it. IsHostedFor it.shared.config.now it.shared.cluster.now };

    ghost is_new = { λ it seat. IsNewSeatOf it.shared.cluster.now seat };

    ghost is_done = { λ it seat. HasSinceDone it.shared.cluster.now (CarriesLives it.shared.config.now it.shared.cluster.now) seat };

    fn run(self, seat: ClusterSeat<HostedNode>) -> ClusterSeat<HostedNode>
        requires ready { IsHostedFor self.shared.config.now self.shared.cluster.now }
        requires new { IsNewSeatOf self.shared.cluster.now seat }
        ensures { HasSinceDone self.entry.shared.cluster.now
            (CarriesLives self.entry.shared.config.now self.entry.shared.cluster.now) result }
    {
        let Carries {
            shared,
            mut carrying,
            mut moments,
        } = self;
        let mut seat = ServiceSeat::of(seat);
        let mut nodes = LivingDesk {
            config: shared.config,
            nodes: LifeDesk {
                desk: HostedDesk::new(shared.rt, shared.cluster, &mut seat),
                slot: 0,
                life: 0,
            },
            notes: shared.notes,
            ahead: Ahead::new(shared.alloc),
        };
        carry_lives(
            &mut nodes,
            &mut moments,
            &mut carrying.streams,
            &mut carrying.waiting,
        );
        seat.into_seat()
    }
}

/// The collector's task: collects until no place follows.
#[derive(Drop)]
struct Collects<'a, R, L, T> {
    shared: Shared<'a, R, L, HostedNode>,
    collecting: Collecting,
    moments: T,
}

impl<R: Wait + Clock, L, T: Moments + Copy> Task<ClusterSeat<HostedNode>>
    for Collects<'_, R, L, T> {
    ghost is_ready = { λ it. IsHostedFor it.shared.config.now it.shared.cluster.now };

    ghost is_new = { λ it seat. IsNewSeatOf it.shared.cluster.now seat };

    ghost is_done = { λ it seat. HasSinceDone it.shared.cluster.now (CollectsLives it.shared.config.now it.shared.cluster.now) seat };

    fn run(self, seat: ClusterSeat<HostedNode>) -> ClusterSeat<HostedNode>
        requires ready { IsHostedFor self.shared.config.now self.shared.cluster.now }
        requires new { IsNewSeatOf self.shared.cluster.now seat }
        ensures { HasSinceDone self.entry.shared.cluster.now
            (CollectsLives self.entry.shared.config.now self.entry.shared.cluster.now) result }
    {
        let Collects {
            shared,
            mut collecting,
            mut moments,
        } = self;
        let mut seat = ServiceSeat::of(seat);
        let mut nodes = LivingDesk {
            config: shared.config,
            nodes: LifeDesk {
                desk: HostedDesk::new(shared.rt, shared.cluster, &mut seat),
                slot: 0,
                life: 0,
            },
            notes: shared.notes,
            ahead: Ahead::new(shared.alloc),
        };
        collect_lives(&mut nodes, &mut moments, &mut collecting);
        seat.into_seat()
    }
}

// ---- the host

/// The result of the host's thread: its seat, and the open tenants.
#[derive(Drop)]
struct Followed {
    seat: ClusterSeat<HostedNode>,
    roster: Roster,
}

/// The host's promise: it has since followed lines.
#[derive(Drop)]
struct FollowsPromise {
    cluster: Snapshot<Cluster<HostedNode>>,
    roster: Snapshot<Roster>,
}

impl Promise<Followed> for FollowsPromise {
    ghost kept_by = { λ p followed. HasSinceDone p.cluster.value (FollowsLines p.cluster.value p.roster.value followed.roster) followed.seat };
}

impl FollowsPromise {
    fn new(cluster: &Cluster<HostedNode>, roster: &Roster) -> FollowsPromise
        ensures { (result.cluster.value ≡ cluster.now) × (result.roster.value ≡ roster.now) }
    {
        FollowsPromise {
            cluster: Snapshot::of(cluster),
            roster: Snapshot::of(roster),
        }
    }
}

// Follows the host's lines at a desk until none follows.
fn follow_lines<R: Wait + Clock, L: HostReports, S: Site>(
    together: Together<'_, R, L, S>,
    host: &mut TenantHost<'_, R>,
    taken: &mut Batch,
)
    requires site { host.old.desk.cluster.now ≡ S.cluster }
    requires nodes { 0 < length (openings host.old.desk.cluster.now) }
    ensures desk { (host.new.desk.cluster.now ≡ host.old.desk.cluster.now)
        × (host.new.desk.seat.ghost_name ≡ host.old.desk.seat.ghost_name) }
    ensures roster { host.new.roster.ghost_name ≡ host.old.roster.ghost_name }
    ensures account { host.new.desk.seat.now.account ≡ host.old.desk.seat.now.account }
    ensures follows { FollowsLines host.old.desk.cluster.now host.old.roster.now host.new.roster.now
        host.old.desk.seat.now host.new.desk.seat.now }
{
    for _ in together.shared.rt.forever() {
        let goes_on = together.lines.take(together.shared.rt, &mut taken.lines);
        follow_each(
            together.shared.rt,
            together.residents,
            together.shared.listening.stop,
            together.shared.listening.reports,
            host,
            &mut taken.replies,
            taken.lines.as_slice(),
        );
        taken.lines.clear();
        if !goes_on {
            return;
        }
    }
}

// The thread that follows the host's lines. It has no use for timestamps: a closure over references alone, without a value
// of a type parameter, doesn't pass on what it ensures.
#[tactic(auto, using(crate::proofs::Admitted::some_hosted))]
fn follow_host<R: Wait + Clock, L: HostReports, T: Copy, S: Site>(
    together: Together<'_, R, L, S>,
    seat: ClusterSeat<HostedNode>,
    mut roster: Roster,
    mut taken: Batch,
    _moments: T,
) -> Followed
    requires open { IsHostedFor together.shared.config.now together.shared.cluster.now }
    requires seat { IsNewSeatOf together.shared.cluster.now seat }
    ensures done { HasSinceDone together.entry.shared.cluster.now
        (FollowsLines together.entry.shared.cluster.now roster result.roster) result.seat }
    ensures follows { FollowsLines together.entry.shared.cluster.now roster result.roster
        seat result.seat }
{
    let mut seat = ServiceSeat::of(seat);
    let mut host = TenantHost {
        desk: HostedDesk::new(together.shared.rt, together.shared.cluster, &mut seat),
        roster: &mut roster,
    };
    follow_lines(together, &mut host, &mut taken);
    Followed {
        seat: seat.into_seat(),
        roster,
    }
}

// ---- all threads

// Accepts connections and has them served, beside a thread that follows the host's lines. Returns none if that thread
// can't be started.
fn serve_and_host<R, L, T, S>(
    together: Together<'_, R, L, S>,
    to: Sender<Accepted, Global>,
    streams: &Receiver<Accepted, Global>,
    seats: Vec<ClusterSeat<HostedNode>>,
    seat: ClusterSeat<HostedNode>,
    roster: Roster,
    moments: T,
) -> Result<Option<Left>, AllocError>
where
    R: Threads + Wait + Clock + Sync,
    L: Reports + HostReports + Sync,
    T: Moments + Copy + Send,
    S: Site + Copy + Send,
    requires open { IsHostedFor together.shared.config.now together.shared.cluster.now }
    requires seats { AllByRecursion (λ seat. IsNewSeatOf together.shared.cluster.now seat)
        seats.items }
    requires host { IsNewSeatOf together.shared.cluster.now seat }
    ensures { IfOk result (λ r. IfSome r (λ left. IfSome left.finished (λ f.
        AreOfHosts T.Gives moments together.entry.shared.config.now
        together.entry.shared.cluster.now (length seats.items) roster left.roster f.seats.items))) }
{
    let taken = together.lines.room(together.shared.alloc)?;
    thread::scope(
        thread::scope_env(),
        together.shared.rt,
        move |scope| -> Result<Option<Left>, AllocError>
            requires { IsSync R.row × IsSync L.row × IsSend T.row × IsSend S.row
                × IsHostedFor together.shared.config.now together.shared.cluster.now
                × AllByRecursion (λ seat. IsNewSeatOf together.shared.cluster.now seat) seats.items
                × IsNewSeatOf together.shared.cluster.now seat }
            ensures { IfOk result (λ r. IfSome r (λ left. IfSome left.finished (λ f.
                AreOfHosts T.Gives moments together.entry.shared.config.now
                together.entry.shared.cluster.now
                (length seats.items) roster left.roster f.seats.items))) }
        {
            let Ok(hosts) = scope.spawn_with(
                FollowsPromise::new(together.shared.cluster, &roster),
                move || -> Followed
                    requires { IsHostedFor together.shared.config.now together.shared.cluster.now
                        × IsNewSeatOf together.shared.cluster.now seat }
                    ensures { HasSinceDone together.entry.shared.cluster.now
                        (FollowsLines together.entry.shared.cluster.now roster result.roster)
                        result.seat }
                { follow_host(together, seat, roster, taken, moments) },
            ) else {
                return Ok(None);
            };
            let task = Serves {
                together,
                streams,
                moments,
            };
            let served = accept_and_serve(
                together.shared.rt,
                together.shared.alloc,
                together.shared.listening,
                to,
                seats,
                task,
            );
            together.lines.end(together.shared.rt);
            let Followed { seat, roster } = hosts.join(together.shared.rt);
            let left = Left {
                finished: served?,
                roster,
            };
            Ok(Some(left.add(seat)?))
        },
    )
}

/// Serves connections, and follows the host's lines meanwhile, beside a thread that carries and one that collects. Returns
/// none if one of these or the host's can't be started.
pub(crate) fn serve_hosted<R, L, T, S>(
    together: Together<'_, R, L, S>,
    crew: Crew<HostedNode>,
    host: ClusterSeat<HostedNode>,
    helpers: Helpers,
    roster: Roster,
    moments: T,
) -> Result<Option<Left>, AllocError>
where
    R: Threads + Wait + Clock + Sync,
    L: Reports + HostReports + Sync,
    T: Moments + Copy + Send,
    S: Site + Copy + Send,
    requires open { IsHostedFor together.shared.config.now together.shared.cluster.now }
    requires workers { AllByRecursion (λ seat. IsNewSeatOf together.shared.cluster.now seat)
        crew.workers.items }
    requires carrier { IsNewSeatOf together.shared.cluster.now crew.carrier }
    requires collector { IsNewSeatOf together.shared.cluster.now crew.collector }
    requires host { IsNewSeatOf together.shared.cluster.now host }
    ensures { IfOk result (λ r. IfSome r (λ left. IfSome left.finished (λ f.
        AreOfLifeCrew T.Gives moments together.entry.shared.config.now
        together.entry.shared.cluster.now (length crew.workers.items) roster left.roster
        f.seats.items))) }
{
    let Crew {
        workers,
        carrier,
        collector,
    } = crew;
    let Helpers {
        carrying,
        collecting,
    } = helpers;
    let shared = together.shared;
    let (to, from) = crossbeam_channel::bounded(shared.alloc, workers.len())?;
    let streams = &from;
    let carrier = Job {
        seat: carrier,
        task: Carries {
            shared,
            carrying,
            moments,
        },
    };
    let collector = Job {
        seat: collector,
        task: Collects {
            shared,
            collecting,
            moments,
        },
    };
    serve_helped(
        shared.rt,
        shared.notes,
        carrier,
        collector,
        move || -> Result<Option<Left>, AllocError>
            requires { IsSync R.row × IsSync L.row × IsSend T.row × IsSend S.row
                × IsHostedFor together.shared.config.now together.shared.cluster.now
                × AllByRecursion (λ seat. IsNewSeatOf together.shared.cluster.now seat)
                workers.items × IsNewSeatOf together.shared.cluster.now host }
            ensures { IfOk result (λ r. IfSome r (λ left. IfSome left.finished (λ f.
                AreOfHosts T.Gives moments together.entry.shared.config.now
                together.entry.shared.cluster.now
                (length workers.items) roster left.roster f.seats.items))) }
        { serve_and_host(together, to, streams, workers, host, roster, moments) },
    )
}
