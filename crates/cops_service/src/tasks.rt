//! Threads beside each other, each with a task and a seat.
ghost use Rattle.std.specs.Prelude.{◌≡◌, ◌+◌, ◌∷◌, ◌++◌, [], length, IfOk, IfSome, IsSomeAnd, Ok};
ghost use Rattle.std.specs.List.{AllByRecursion};
ghost use Rattle.std.specs.Thread.{IsSend, IsSync};
ghost use Rattle.cops_service.specs.SeatsDone.{AddsOne};

use crate::accepting::{Accepted, ServiceEnd, accept_each};
use crate::lines::grace_of;
use crate::notes::{NoteList, Noted, Notes};
use crate::reports::Reports;
use crate::serving::Listening;
use crossbeam_channel::Sender;
use std::alloc::{AllocError, Global};
use std::snapshot::Snapshot;
use std::sync::Wait;
use std::thread;
use std::thread::{Promise, PromisedHandle, Threads};
use std::time::Clock;

/// A thread's task with a seat of type `S`. The thread gives the seat back.
pub(crate) trait Task<S> {
    /// The task can be done.
    ghost is_ready: { Self → Type 0 };

    /// The thread may begin with this seat.
    ghost is_new: { Self → S → Type 0 };

    /// The task has been done with this seat.
    ghost is_done: { Self → S → Type 0 };

    fn run(self, seat: S) -> S
        requires ready { is_ready self }
        requires new { is_new self seat }
        ensures { is_done self result };
}

/// A thread's promise: it has done its task with the seat that it gives back.
#[derive(Drop)]
pub(crate) struct DonePromise<K> {
    pub(crate) task: Snapshot<K>,
}

impl<S, K: Task<S>> Promise<S> for DonePromise<K> {
    ghost kept_by = { λ p seat. K.is_done p.task.value seat };
}

impl<K> DonePromise<K> {
    fn new(task: &K) -> DonePromise<K>
        ensures { result.task.value ≡ task.now }
    {
        DonePromise {
            task: Snapshot::of(task),
        }
    }
}

/// A thread that does a task.
type Doing<S, K> = PromisedHandle<S, DonePromise<K>>;

/// A seat, and the task of its thread.
#[derive(Drop)]
pub(crate) struct Job<S, K> {
    pub(crate) seat: S,
    pub(crate) task: K,
}

/// The end of a service whose threads were all started, and the seats that they gave back.
#[derive(Drop)]
pub(crate) struct Finished<S> {
    pub(crate) end: ServiceEnd,
    pub(crate) seats: Vec<S>,
}

/// Results of threads, to which another thread's seat is added.
pub(crate) trait Gathered<S>: Send + Drop {
    /// The seat is added.
    ghost adds: { Self → S → Self → Type 0 };

    /// Adds a seat. Fails with `AllocError` if memory runs out.
    fn add(self, seat: S) -> Result<Self, AllocError>
        ensures { IfOk result (λ after. adds self seat after) };
}

impl<S: Send + Drop> Gathered<S> for Finished<S> {
    ghost adds = { λ before seat after. after.seats.items ≡ before.seats.items ++ seat ∷ [] };

    fn add(self, seat: S) -> Result<Finished<S>, AllocError>
        ensures { IfOk result (λ after. after.seats.items ≡ self.seats.items ++ seat ∷ []) }
    {
        let Finished { end, mut seats } = self;
        seats.push(seat)?;
        Ok(Finished { end, seats })
    }
}

// Waits for threads that do the same task, and adds their seats.
fn join_each<R: Threads, S: Drop, K: Task<S>>(
    rt: &R,
    task: &K,
    threads: Vec<Doing<S, K>>,
    mut seats: Vec<S>,
) -> Result<Vec<S>, AllocError>
    requires empty { seats.items ≡ [] }
    requires threads { AllByRecursion (λ thread. thread.promise.task.value ≡ task.now)
        threads.items }
    ensures count { IfOk result (λ seats. length seats.items ≡ length threads.items) }
    ensures done { IfOk result (λ seats. AllByRecursion (K.is_done task.now) seats.items) }
{
    for thread in threads {
        seats.push(thread.join(rt))?;
    }
    Ok(seats)
}

// Accepts connections and hands them to workers.
fn accept_for<R: Wait + Clock, L: Reports>(
    rt: &R,
    listening: Listening<'_, L>,
    to: Sender<Accepted, Global>,
) -> ServiceEnd {
    accept_each(
        rt,
        listening.listener,
        listening.options.connections,
        to,
        listening.stop,
        grace_of(listening.options.idle),
        listening.reports,
    )
}

/// Accepts connections and hands them to workers, which serve them until none follows. Returns none if a worker can't be
/// started.
pub(crate) fn accept_and_serve<'a, R, L, S, K>(
    rt: &'a R,
    alloc: Global,
    listening: Listening<'a, L>,
    to: Sender<Accepted, Global>,
    seats: Vec<S>,
    task: K,
) -> Result<Option<Finished<S>>, AllocError>
where
    R: Threads + Wait + Clock + Sync,
    L: Reports + Sync,
    S: Send + Drop,
    K: Task<S> + Copy + Send,
    requires ready { K.is_ready task }
    requires seats { AllByRecursion (K.is_new task) seats.items }
    ensures { IfOk result (λ r. IfSome r (λ f. (length f.seats.items ≡ length seats.items)
        × AllByRecursion (K.is_done task) f.seats.items)) }
{
    thread::scope(
        thread::scope_env(),
        rt,
        move |scope| -> Result<Option<Finished<S>>, AllocError>
            requires { IsSync R.row × IsSync L.row × IsSend S.row × IsSend K.row
                × K.is_ready task × AllByRecursion (K.is_new task) seats.items }
            ensures { IfOk result (λ r. IfSome r (λ f. (length f.seats.items ≡ length seats.items)
                × AllByRecursion (K.is_done task) f.seats.items)) }
        {
            let count = seats.len();
            let mut workers: Vec<Doing<S, K>> = Vec::with_capacity(alloc, count)?;
            // It has room for the seats of the threads beside the workers.
            let ended = Vec::with_capacity(alloc, count.saturating_add(3))?;
            for seat in seats {
                let Ok(worker) = scope.spawn_with(
                    DonePromise::new(&task),
                    move || -> S
                        requires { K.is_ready task × K.is_new task seat }
                        ensures { K.is_done task result }
                    { task.run(seat) },
                ) else {
                    return Ok(None);
                };
                workers.push(worker)?;
            }
            let end = accept_for(rt, listening, to);
            let seats = join_each(rt, &task, workers, ended)?;
            Ok(Some(Finished { end, seats }))
        },
    )
}

// Serves beside a thread that does a job until its work queue has ended. Returns none if that thread can't be
// started.
fn serve_beside<'a, R, S, N, H, F, G>(
    rt: &'a R,
    job: Job<S, H>,
    list: &'a NoteList<N>,
    serve: F,
) -> Result<Option<G>, AllocError>
where
    R: Threads + Wait + Sync,
    S: Send + Drop,
    N: Noted + Send,
    H: Task<S> + Send + Drop,
    F: FnOnce() -> Result<Option<G>, AllocError> + Send + Drop,
    G: Gathered<S>,
    requires ready { H.is_ready job.task }
    requires seat { H.is_new job.task job.seat }
    requires serve { F.IsAlwaysCallable serve }
    ensures { IfOk result (λ r. IfSome r (λ after. (served : _) × F.post serve (Ok served)
        × IsSomeAnd served (λ before. AddsOne G.adds (H.is_done job.task) before after))) }
{
    let Job { seat, task } = job;
    thread::scope(
        thread::scope_env(),
        rt,
        move |scope| -> Result<Option<G>, AllocError>
            requires { IsSync R.row × IsSend S.row × IsSend N.row × IsSend H.row × IsSend F.row
                × IsSend G.row × H.is_ready task × H.is_new task seat × F.IsAlwaysCallable serve }
            ensures { IfOk result (λ r. IfSome r (λ after. (served : _) × F.post serve (Ok served)
                × IsSomeAnd served (λ before. AddsOne G.adds (H.is_done task) before after))) }
        {
            let Ok(helps) = scope.spawn_with(
                DonePromise::new(&task),
                move || -> S
                    requires { H.is_ready task × H.is_new task seat }
                    ensures { H.is_done task result }
                { task.run(seat) },
            ) else {
                return Ok(None);
            };
            let served = serve();
            list.end(rt);
            let seat = helps.join(rt);
            let Some(gathered) = served? else {
                return Ok(None);
            };
            Ok(Some(gathered.add(seat)?))
        },
    )
}

/// Serves beside a thread that carries and one that collects. Returns none if one of these can't be started.
pub(crate) fn serve_helped<'a, R, S, A, B, F, G>(
    rt: &'a R,
    notes: &'a Notes,
    carrier: Job<S, A>,
    collector: Job<S, B>,
    serve: F,
) -> Result<Option<G>, AllocError>
where
    R: Threads + Wait + Sync,
    S: Send + Drop,
    A: Task<S> + Send + Drop,
    B: Task<S> + Send + Drop,
    F: FnOnce() -> Result<Option<G>, AllocError> + Send + Drop,
    G: Gathered<S>,
    requires carrier { A.is_ready carrier.task × A.is_new carrier.task carrier.seat }
    requires collector { B.is_ready collector.task × B.is_new collector.task collector.seat }
    requires serve { F.IsAlwaysCallable serve }
    ensures { IfOk result (λ r. IfSome r (λ after. (served : _) × F.post serve (Ok served)
        × IsSomeAnd served (λ before. (between : _)
        × AddsOne G.adds (A.is_done carrier.task) before between
        × AddsOne G.adds (B.is_done collector.task) between after))) }
{
    serve_beside(
        rt,
        collector,
        &notes.grown,
        move || -> Result<Option<G>, AllocError>
            requires { IsSync R.row × IsSend S.row × IsSend A.row × IsSend F.row × IsSend G.row
                × A.is_ready carrier.task × A.is_new carrier.task carrier.seat
                × F.IsAlwaysCallable serve }
            ensures { IfOk result (λ r. IfSome r (λ after. (served : _) × F.post serve (Ok served)
                × IsSomeAnd served
                (λ before. AddsOne G.adds (A.is_done carrier.task) before after))) }
        { serve_beside(rt, carrier, &notes.sent, serve) },
    )
}
