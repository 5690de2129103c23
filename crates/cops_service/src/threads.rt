//! The tasks of the threads of a service whose tenants are fixed.
ghost use Rattle.std.specs.Prelude.{◌≡◌, ℕ, length, IfOk, IfSome, IsTrue};
ghost use Rattle.std.specs.List.{AllByRecursion};
ghost use Rattle.std.specs.Thread.{IsSend, IsSync};
ghost use Rattle.cops_types.specs.HeadLines.{are_sizes};
ghost use Rattle.cops_node.specs.Clusters.{shape_of};
ghost use Rattle.cops_wire.specs.Requests.{KeepsShape};
ghost use Rattle.cops_service.specs.Conversing.{ConverseAll, Converses};
ghost use Rattle.cops_service.specs.Crews.{AreOfCrew, AreOfWorkers, CarriesStreams, CollectsPlaces, IsOpenFor, ServesClients};
ghost use Rattle.cops_service.specs.Gates.{IsNewSeatOf};
ghost use Rattle.cops_service.specs.SeatsDone.{HasSinceDone};

use crate::accepting::Accepted;
use crate::ahead::Ahead;
use crate::carrying::{carry_noted, collect_noted};
use crate::clients::serve_line;
use crate::cluster::ServiceSeat;
use crate::desk::Desk;
use crate::dues::Collecting;
use crate::lines::Line;
use crate::notes::Stream;
use crate::noting::NotingDesk;
use crate::reports::{Course, Reports, Totals, cause_of};
use crate::seated::Crew;
use crate::shared::{Carrying, Helpers, Shared};
use crate::tallies::Tally;
use crate::tasks::{Finished, Job, Task, accept_and_serve, serve_helped};
use crate::waiting::Waiting;
use cops_gate::ClusterSeat;
use cops_node::{Node, Nodes};
use cops_types::{Config, RequestError};
use cops_wire::{Ended, Moments};
use crossbeam_channel::Receiver;
use std::alloc::{AllocError, Global};
use std::net::SocketAddr;
use std::sync::Wait;
use std::thread::Threads;
use std::time::Clock;

// Serves a connection. One that fails ends alone.
fn serve_stream<R: Clock, L: Reports, N: Nodes, T: Moments>(
    shared: Shared<'_, R, L, Node>,
    config: &Config,
    accepted: &Accepted,
    nodes: &mut N,
    moments: &mut T,
)
    requires shape { N.shape nodes.old ≡ shape_of config.now }
    requires sizes { IsTrue (are_sizes config.now) }
    ensures converses { Converses (KeepsShape N.shape N.Answers) T.Gives config.now
        nodes.old nodes.new moments.old moments.new }
    ensures shape { N.shape nodes.new ≡ N.shape nodes.old }
{
    let line = Line::new(
        shared.rt,
        &accepted.stream,
        shared.listening.stop,
        shared.listening.options.idle,
    );
    let ended = serve_line(shared.alloc, config, &line, nodes, moments);
    // Closing reads on. So the state is taken before.
    let course = line.course();
    line.close();
    conclude(
        shared.totals,
        shared.listening.reports,
        &accepted.peer,
        line.tally(),
        course,
        &ended,
    );
}

/// Counts a connection that has ended, and reports it if it didn't end cleanly.
pub(crate) fn conclude<L: Reports>(
    totals: &Totals,
    reports: &L,
    peer: &SocketAddr,
    tally: Tally,
    course: Course,
    ended: &Result<Ended, RequestError>,
) {
    let is_torn = matches!(ended, Ok(Ended::Torn));
    totals.add(tally.requests(is_torn), tally.refused_requests(is_torn));
    if let Some(cause) = cause_of(ended, course) {
        reports.ended(peer, cause);
    }
}

// Serves connections until none follows.
fn serve_each<R: Wait + Clock, L: Reports, N: Nodes, T: Moments>(
    shared: Shared<'_, R, L, Node>,
    config: &Config,
    nodes: &mut N,
    streams: &Receiver<Accepted, Global>,
    moments: &mut T,
)
    requires shape { N.shape nodes.old ≡ shape_of config.now }
    requires sizes { IsTrue (are_sizes config.now) }
    ensures converse { (count : ℕ) × ConverseAll (KeepsShape N.shape N.Answers) T.Gives config.now
        count nodes.old nodes.new moments.old moments.new }
{
    for _ in shared.rt.forever() {
        let Ok(accepted) = streams.recv(shared.rt) else {
            return;
        };
        serve_stream(shared, config, &accepted, nodes, moments);
    }
}

// Serves connections at a desk until none follows.
fn serve_at_desk<R: Wait + Clock, L: Reports, T: Moments>(
    shared: Shared<'_, R, L, Node>,
    nodes: &mut NotingDesk<'_, R>,
    streams: &Receiver<Accepted, Global>,
    moments: &mut T,
)
    requires open { IsOpenFor shared.config.now nodes.old.desk.cluster.now }
    ensures desk { (nodes.new.desk.cluster.now ≡ nodes.old.desk.cluster.now)
        × (nodes.new.desk.seat.ghost_name ≡ nodes.old.desk.seat.ghost_name) }
    ensures account { nodes.new.desk.seat.now.account ≡ nodes.old.desk.seat.now.account }
    ensures serves { ServesClients shared.entry.config.now nodes.old.desk.cluster.now T.Gives
        moments.old nodes.old.desk.seat.now nodes.new.desk.seat.now }
{
    serve_each(shared, shared.config, nodes, streams, moments);
}

// Carries at a desk until the list of streams has ended.
fn carry_at_desk<R: Wait + Clock, L: Reports, T: Moments>(
    shared: Shared<'_, R, L, Node>,
    nodes: &mut NotingDesk<'_, R>,
    streams: &mut Vec<Stream>,
    waiting: &mut Waiting,
    moments: &mut T,
)
    requires open { IsOpenFor shared.config.now nodes.old.desk.cluster.now }
    ensures desk { (nodes.new.desk.cluster.now ≡ nodes.old.desk.cluster.now)
        × (nodes.new.desk.seat.ghost_name ≡ nodes.old.desk.seat.ghost_name) }
    ensures account { nodes.new.desk.seat.now.account ≡ nodes.old.desk.seat.now.account }
    ensures carries { CarriesStreams shared.entry.config.now nodes.old.desk.cluster.now
        nodes.old.desk.seat.now nodes.new.desk.seat.now }
{
    carry_noted(
        shared.rt,
        shared.config,
        nodes,
        shared.notes,
        moments,
        streams,
        waiting,
    );
}

// Collects at a desk until the list of places has ended.
fn collect_at_desk<R: Wait + Clock, L: Reports, T: Moments>(
    shared: Shared<'_, R, L, Node>,
    desk: &mut Desk<'_, R>,
    collecting: &mut Collecting,
    moments: &mut T,
)
    requires open { IsOpenFor shared.config.now desk.old.cluster.now }
    ensures desk { (desk.new.cluster.now ≡ desk.old.cluster.now)
        × (desk.new.seat.ghost_name ≡ desk.old.seat.ghost_name) }
    ensures account { desk.new.seat.now.account ≡ desk.old.seat.now.account }
    ensures collects { CollectsPlaces shared.entry.config.now desk.old.cluster.now desk.old.seat.now
        desk.new.seat.now }
{
    collect_noted(
        shared.rt,
        shared.config,
        desk,
        shared.notes,
        moments,
        collecting,
    );
}

/// A worker's task: serves connections until none follows.
#[derive_where(Clone, Copy; T)]
struct Serves<'a, 'b, R, L, T> {
    shared: Shared<'a, R, L, Node>,
    streams: &'b Receiver<Accepted, Global>,
    moments: T,
}

impl<R: Wait + Clock, L: Reports, T: Moments + Copy> Task<ClusterSeat<Node>>
    for Serves<'_, '_, R, L, T> {
    ghost is_ready = { λ it. IsOpenFor it.shared.config.now it.shared.cluster.now };

    ghost is_new = { λ it seat. IsNewSeatOf it.shared.cluster.now seat };

    ghost is_done = { λ it seat. HasSinceDone it.shared.cluster.now (ServesClients it.shared.config.now it.shared.cluster.now T.Gives it.moments) seat };

    fn run(self, seat: ClusterSeat<Node>) -> ClusterSeat<Node>
        requires ready { IsOpenFor self.shared.config.now self.shared.cluster.now }
        requires new { IsNewSeatOf self.shared.cluster.now seat }
        ensures { HasSinceDone self.entry.shared.cluster.now
            (ServesClients self.entry.shared.config.now self.entry.shared.cluster.now T.Gives
            self.entry.moments) result }
    {
        let Serves {
            shared,
            streams,
            mut moments,
        } = self;
        let mut seat = ServiceSeat::of(seat);
        let mut nodes = NotingDesk {
            desk: Desk::new(shared.rt, shared.cluster, &mut seat),
            notes: shared.notes,
            ahead: Ahead::new(shared.alloc),
        };
        serve_at_desk(shared, &mut nodes, streams, &mut moments);
        seat.into_seat()
    }
}

/// The carrier's task: carries until no stream follows.
#[derive(Drop)]
struct Carries<'a, R, L, T> {
    shared: Shared<'a, R, L, Node>,
    carrying: Carrying,
    moments: T,
}

impl<R: Wait + Clock, L: Reports, T: Moments + Copy> Task<ClusterSeat<Node>>
    for Carries<'_, R, L, T> {
    ghost is_ready = { λ it. IsOpenFor it.shared.config.now it.shared.cluster.now };

    ghost is_new = { λ it seat. IsNewSeatOf it.shared.cluster.now seat };

    ghost is_done = { λ it seat. HasSinceDone it.shared.cluster.now (CarriesStreams it.shared.config.now it.shared.cluster.now) seat };

    fn run(self, seat: ClusterSeat<Node>) -> ClusterSeat<Node>
        requires ready { IsOpenFor self.shared.config.now self.shared.cluster.now }
        requires new { IsNewSeatOf self.shared.cluster.now seat }
        ensures { HasSinceDone self.entry.shared.cluster.now
            (CarriesStreams self.entry.shared.config.now self.entry.shared.cluster.now) result }
    {
        let Carries {
            shared,
            mut carrying,
            mut moments,
        } = self;
        let mut seat = ServiceSeat::of(seat);
        let mut nodes = NotingDesk {
            desk: Desk::new(shared.rt, shared.cluster, &mut seat),
            notes: shared.notes,
            ahead: Ahead::new(shared.alloc),
        };
        carry_at_desk(
            shared,
            &mut nodes,
            &mut carrying.streams,
            &mut carrying.waiting,
            &mut moments,
        );
        seat.into_seat()
    }
}

/// The collector's task: collects until no place follows.
#[derive(Drop)]
struct Collects<'a, R, L, T> {
    shared: Shared<'a, R, L, Node>,
    collecting: Collecting,
    moments: T,
}

impl<R: Wait + Clock, L: Reports, T: Moments + Copy> Task<ClusterSeat<Node>>
    for Collects<'_, R, L, T> {
    ghost is_ready = { λ it. IsOpenFor it.shared.config.now it.shared.cluster.now };

    ghost is_new = { λ it seat. IsNewSeatOf it.shared.cluster.now seat };

    ghost is_done = { λ it seat. HasSinceDone it.shared.cluster.now (CollectsPlaces it.shared.config.now it.shared.cluster.now) seat };

    fn run(self, seat: ClusterSeat<Node>) -> ClusterSeat<Node>
        requires ready { IsOpenFor self.shared.config.now self.shared.cluster.now }
        requires new { IsNewSeatOf self.shared.cluster.now seat }
        ensures { HasSinceDone self.entry.shared.cluster.now
            (CollectsPlaces self.entry.shared.config.now self.entry.shared.cluster.now) result }
    {
        let Collects {
            shared,
            mut collecting,
            mut moments,
        } = self;
        let mut seat = ServiceSeat::of(seat);
        let mut desk = Desk::new(shared.rt, shared.cluster, &mut seat);
        collect_at_desk(shared, &mut desk, &mut collecting, &mut moments);
        seat.into_seat()
    }
}

/// Serves connections beside a thread that carries and one that collects. Returns none if a thread can't be started.
#[tactic(auto, using(crate::proofs::Crews::are_of_crew))]
pub(crate) fn serve_and_collect<R, L, T>(
    shared: Shared<'_, R, L, Node>,
    crew: Crew<Node>,
    helpers: Helpers,
    moments: T,
) -> Result<Option<Finished<ClusterSeat<Node>>>, AllocError>
where
    R: Threads + Wait + Clock + Sync,
    L: Reports + Sync,
    T: Moments + Copy + Send,
    requires open { IsOpenFor shared.config.now shared.cluster.now }
    requires workers { AllByRecursion (λ seat. IsNewSeatOf shared.cluster.now seat)
        crew.workers.items }
    requires carrier { IsNewSeatOf shared.cluster.now crew.carrier }
    requires collector { IsNewSeatOf shared.cluster.now crew.collector }
    ensures { IfOk result (λ r. IfSome r (λ f. AreOfCrew T.Gives moments shared.entry.config.now
        shared.entry.cluster.now (length crew.workers.items) f.seats.items)) }
{
    let Crew {
        workers,
        carrier,
        collector,
    } = crew;
    let Helpers {
        carrying,
        collecting,
    } = helpers;
    let (to, from) = crossbeam_channel::bounded(shared.alloc, workers.len())?;
    let streams = &from;
    let carrier = Job {
        seat: carrier,
        task: Carries {
            shared,
            carrying,
            moments,
        },
    };
    let collector = Job {
        seat: collector,
        task: Collects {
            shared,
            collecting,
            moments,
        },
    };
    serve_helped(
        shared.rt,
        shared.notes,
        carrier,
        collector,
        move || -> Result<Option<Finished<ClusterSeat<Node>>>, AllocError>
            requires { IsSync R.row × IsSync L.row × IsSend T.row
                × IsOpenFor shared.config.now shared.cluster.now
                × AllByRecursion (λ seat. IsNewSeatOf shared.cluster.now seat) workers.items }
            ensures { IfOk result (λ r. IfSome r (λ f. AreOfWorkers T.Gives moments
                shared.entry.config.now shared.entry.cluster.now (length workers.items)
                f.seats.items)) }
        {
            let task = Serves {
                shared,
                streams,
                moments,
            };
            accept_and_serve(shared.rt, shared.alloc, shared.listening, to, workers, task)
        },
    )
}
