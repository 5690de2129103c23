//! A service whose tenants come and go.
ghost use Rattle.std.specs.Prelude.{◌≡◌, ◌≢◌, ◌⊎◌, ◌+◌, map, max, length, OnOk, IsTrue, IfOk, IfErr, IfSome};
ghost use Rattle.cops_types.specs.declared.faults.Fault.TheVariants.{ReadFault};
ghost use Rattle.cops_types.specs.declared.request_errors.RequestError.TheVariants.{OutOfMemory, Refused};
ghost use Rattle.cops_types.specs.HeadLines.{are_sizes};
ghost use Rattle.cops_node.specs.Parts.{are_clocks};
ghost use Rattle.cops_service.specs.declared.accepting.ServiceEnd.TheVariants.{NoThread};
ghost use Rattle.cops_service.specs.Gates.{HasSplitOff};
ghost use Rattle.cops_service.specs.HostedDesks.{hosted_node};
ghost use Rattle.cops_service.specs.HostedLeft.{AreLeftByLives};
ghost use Rattle.cops_service.specs.LifeCrews.{AreOfLifeCrew, AreServedInLives, HasSeenLives, IsHostedFor};
ghost use Rattle.cops_service.specs.Rosters.{first_roster};

use crate::accepting::ServiceEnd;
use crate::cluster::Cluster;
use crate::dues::Collecting;
use crate::host_lines::HostLines;
use crate::host_threads::{Left, Together, serve_hosted};
use crate::notes::{Notes, Stream};
use crate::reports::{Counts, HostReports, Reports, Totals};
use crate::residents::{Residents, Site};
use crate::roster::Roster;
use crate::seated::Seated;
use crate::serving::{Listening, Options, helpers, worker_count};
use crate::shared::Shared;
use crate::stops::Stop;
use crate::tasks::Finished;
use crate::waiting::Waiting;
use cops_node::{HostedNode, Node};
use cops_types::{Config, Fault, RequestError};
use cops_wire::Moments;
use std::alloc::{AllocError, Global};
use std::marker::Brand;
use std::net::TcpListener;
use std::sync::Wait;
use std::thread::Threads;
use std::time::Clock;

/// The most tenants at once.
const MOST_TENANTS: u64 = 64;

/// A host's access to a running service.
#[derive_where(Clone, Copy)]
pub struct Host<'a, L> {
    /// The lines that the service follows.
    pub lines: &'a HostLines,
    /// Ends the service in an orderly way.
    pub stop: &'a Stop,
    /// Gets the replies, and reports of connections.
    pub reports: &'a L,
}

/// The result of a service whose tenants came and went.
#[derive(Drop)]
pub struct HostServed {
    /// The nodes, by number.
    pub nodes: Vec<Node>,
    /// The tenants that are open.
    pub roster: Roster,
    /// The service's end.
    pub end: ServiceEnd,
    /// Its counts.
    pub counts: Counts,
}

/// The end of a service, its counts, and the tenants that are open then.
#[derive(Drop)]
struct Outcome {
    end: ServiceEnd,
    counts: Counts,
    roster: Roster,
}

// Ends the seats that the threads gave back. Returns the end of the service, its counts, and the open tenants.
#[tactic(auto, using(crate::proofs::LifeCrews::crew_own, crate::proofs::LifeCrews::seen_lives))]
fn end_seats<T: Moments + Copy>(
    alloc: Global,
    seated: &mut Seated<'_, HostedNode>,
    left: Option<Left>,
    counts: Counts,
    moments: T,
    workers: u64,
) -> Result<Outcome, AllocError>
    requires crew { IfSome left (λ l. IfSome l.finished
        (λ f. AreOfLifeCrew T.Gives moments seated.old.config.now seated.old.cluster.now workers
        (first_roster seated.old.config.now) l.roster f.seats.items)) }
    requires first { HasSplitOff (workers + 1 + 1 + 1) seated.old.seat }
    ensures cluster { (seated.new.cluster ≡ seated.old.cluster)
        × (seated.new.config ≡ seated.old.config) }
    ensures seen { IfOk result (λ outcome. (outcome.end ≡ NoThread)
        ⊎ HasSeenLives T.Gives moments seated.old.config.now seated.old.cluster.now workers
        (first_roster seated.old.config.now) outcome.roster seated.new.seat) }
{
    let _ = (moments, workers);
    match left {
        Some(Left { finished, roster }) => match finished {
            Some(Finished { end, seats }) => {
                seated.end_all(seats);
                Ok(Outcome {
                    end,
                    counts,
                    roster,
                })
            }
            None => Ok(Outcome {
                end: ServiceEnd::NoThread,
                counts,
                roster,
            }),
        },
        None => Ok(Outcome {
            end: ServiceEnd::NoThread,
            counts,
            roster: Roster::of(alloc, seated.config)?,
        }),
    }
}

// Serves connections at the nodes of an open cluster. In the end the seat has seen all that the threads did.
fn serve_nodes<R, T, L, S>(
    rt: &R,
    alloc: Global,
    seated: &mut Seated<'_, HostedNode>,
    listener: &TcpListener,
    options: Options,
    host: Host<'_, L>,
    moments: T,
) -> Result<Outcome, AllocError>
where
    R: Threads + Wait + Clock + Sync,
    T: Moments + Copy + Send,
    L: Reports + HostReports + Sync,
    S: Site + Copy + Send,
    requires open { IsHostedFor seated.old.config.now seated.old.cluster.now }
    requires site { (seated.old.config.now ≡ S.config) × (seated.old.cluster.now ≡ S.cluster) }
    requires first { HasSplitOff 0 seated.old.seat }
    ensures cluster { (seated.new.cluster ≡ seated.old.cluster)
        × (seated.new.config ≡ seated.old.config) }
    ensures seen { IfOk result (λ outcome. (outcome.end ≡ NoThread) ⊎ HasSeenLives T.Gives moments
        seated.old.config.now seated.old.cluster.now (max options.workers 1)
        (first_roster seated.old.config.now) outcome.roster seated.new.seat) }
{
    let workers = worker_count(&options);
    let crew = seated.crew(alloc, workers)?;
    let host_seat = seated.split(alloc)?;
    let roster = Roster::of(alloc, seated.config)?;
    let residents = Residents::<S>::of(alloc, seated.config, seated.cluster, &mut seated.seat)?;
    let notes = Notes::of_slots(alloc, seated.config, MOST_TENANTS)?;
    let helpers = helpers(alloc, seated.config, &notes)?;
    let totals = Totals::new();
    let shared = Shared {
        rt,
        alloc,
        config: seated.config,
        cluster: seated.cluster,
        listening: Listening {
            listener,
            options,
            stop: host.stop,
            reports: host.reports,
        },
        notes: &notes,
        totals: &totals,
    };
    let together = Together {
        shared,
        residents: &residents,
        lines: host.lines,
    };
    let left = serve_hosted(together, crew, host_seat, helpers, roster, moments)?;
    end_seats(alloc, seated, left, totals.counts(), moments, workers)
}

// Returns the nodes without their tenants' lives.
fn nodes_of(alloc: Global, hosted: Vec<HostedNode>) -> Result<Vec<Node>, AllocError>
    ensures { IfOk result (λ nodes. nodes.items ≡ map hosted_node hosted.items) }
{
    let mut nodes = Vec::with_capacity(alloc, hosted.len())?;
    for node in hosted {
        nodes.push(node.into_node())?;
    }
    Ok(nodes)
}

/// Serves connections as `serve_with` does, and meanwhile admits and closes tenants as the host's lines say. Clients are
/// greeted as a tenant once all nodes have it, and until it is closed.
#[tactic(auto, using(crate::proofs::SeatsDone::none_split))]
pub fn serve_with_host<R, T, L>(
    rt: &R,
    alloc: Global,
    config: &Config,
    listener: &TcpListener,
    options: Options,
    host: Host<'_, L>,
    moments: T,
) -> Result<HostServed, RequestError>
where
    R: Threads + Wait + Clock + Sync,
    T: Moments + Copy + Send,
    L: Reports + HostReports + Sync,
    requires sizes { IsTrue (are_sizes config.now) }
    requires clocks { IsTrue (are_clocks config.now) }
    ensures left { IfOk result (λ served. AreLeftByLives config.now served.nodes.items) }
    ensures served { IfOk result (λ served. served.end ≢ NoThread → AreServedInLives T.Gives moments
        config.now (max options.workers 1) served.nodes.items served.roster) }
    ensures refused { IfErr result (λ error. (error ≡ OutOfMemory) ⊎ (error ≡ Refused ReadFault)) }
{
    let (cluster, seat) = Cluster::host(alloc, config)?;
    let mut seated = Seated {
        config,
        cluster: &cluster,
        seat,
    };
    let outcome = serve_nodes::<R, T, L, Brand>(
        rt,
        alloc,
        &mut seated,
        listener,
        options,
        host,
        moments,
    )?;
    let seat = seated.into_seat();
    let closed = cluster.close(alloc, seat)?;
    // If all threads started, each gave its seat back, and no node is missing.
    let Some(hosted) = closed else {
        return Err(RequestError::Refused(Fault::ReadFault));
    };
    let nodes = nodes_of(alloc, hosted)?;
    let Outcome {
        end,
        counts,
        roster,
    } = outcome;
    Ok(HostServed {
        nodes,
        roster,
        end,
        counts,
    })
}
