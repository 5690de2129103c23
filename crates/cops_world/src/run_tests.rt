//! Runs of events and of scripts, over readers and writers that cut what they are given or fail.
ghost use Rattle.std.specs.Prelude.{◌≡◌, ◌<◌, All, IfOk, IsTrue, length};
ghost use Rattle.cops_types.specs.declared.configs.Tenant.{Tenant};
ghost use Rattle.cops_script.specs.GoodHeads.{is_good};

use crate::test_streams::{Endless, Pieces, Trickle};
use crate::test_worlds::{config_of, event_of, row, says};
use crate::{Event, Reply, World, run, run_script, run_world, solo};
use cops_script::{BadConfig, RunFault, run_script_in};
use cops_types::{Config, Fault, Sink, Source, Tenants};
use std::alloc::{AllocError, Global};
use std::process::Abort;

const TWO_SHARDS: &str = "cluster 1 2 5000 1
tenant acme 00000000-0000-0000-0000-000000000001 0 100 10000 10 4 20 8 1000
tenant beta 00000000-0000-0000-0000-000000000002 0 100 10000 10 4 20 8 1000
begin";

/// Both tenants' events: beta's come between the rounds of acme's transaction.
const BOTH: &str = "acme open a 0 > opened
acme ctx a > context 1
acme open b 0 > opened
acme ctx b > context 1
beta open b 0 > opened
beta ctx b > context 1
beta put b 1 x 99 > started
beta done b 900000 > stored x 1.0
beta collect 0 0 990000 > removed 0
acme get a 1 x y > started
beta put b 1 x 99 > started
beta done b 900000 > stored x 2.0
beta collect 0 0 990000 > removed 0
acme step a 10 > working
beta put b 1 x 99 > started
beta done b 900000 > stored x 3.0
beta collect 0 0 990000 > removed 0
acme put b 1 x 10 > started
beta put b 1 x 99 > started
beta done b 900000 > stored x 4.0
beta collect 0 0 990000 > removed 0
acme done b 10 > stored x 1.0
beta put b 1 x 99 > started
beta done b 900000 > stored x 5.0
beta collect 0 0 990000 > removed 0
acme put b 1 y 20 > started
beta put b 1 x 99 > started
beta done b 900000 > stored x 6.0
beta collect 0 0 990000 > removed 0
acme done b 10 > stored y 2.1
beta put b 1 x 99 > started
beta done b 900000 > stored x 7.0
beta collect 0 0 990000 > removed 0
acme step a 11 > working
beta put b 1 x 99 > started
beta done b 900000 > stored x 8.0
beta collect 0 0 990000 > removed 0
acme step a 12 > x=10@1.0 y=20@2.1
acme show a 1 > all x:1.0,y:2.1 near y:2.1";

/// The events of the rows that begin with this.
fn events_of<'a>(
    rt: &impl Abort,
    alloc: Global,
    tenants: &Tenants,
    rows: &'a str,
    begin: &str,
) -> Result<Vec<Event<'a>>, AllocError>
    ensures { IfOk result (λ events. All (λ e. e.slot < length tenants.now) events.items) }
{
    let mut events = Vec::new(alloc);
    for line in rows.lines() {
        if line.starts_with(begin) {
            let event = event_of(rt, tenants, row(rt, line).0);
            events.push(event)?;
        }
    }
    Ok(events)
}

/// Asserts that a reply, which is there, is that of a row.
fn assert_reply(rt: &impl Abort, alloc: Global, reply: Option<&Reply>, line: &str) {
    match reply {
        Some(reply) => assert!(rt; says(rt, alloc, reply, row(rt, line).1), "{line}"),
        None => panic!(rt; "a reply to each event"),
    }
}

/// Asserts that the replies are those of the rows that begin with this.
fn assert_told(rt: &impl Abort, alloc: Global, told: &[Reply], rows: &str, begin: &str) {
    let mut rest = told.iter();
    for line in rows.lines() {
        if line.starts_with(begin) {
            assert_reply(rt, alloc, rest.next(), line);
        }
    }
    assert!(rt; rest.next().is_none());
}

#[test]
fn a_tenant_between_the_rounds_is_not_noticed(rt: HostRuntime) {
    let alloc = rt.alloc();
    let config = config_of(&rt, alloc, TWO_SHARDS);
    let events = events_of(&rt, alloc, &config.tenants, BOTH, "").expect(&rt, "memory");
    let told = run(alloc, config, &events).expect(&rt, "memory");
    assert_told(&rt, alloc, &told, BOTH, "");
}

/// Asserts that a tenant alone gets the replies of its rows, which begin with this.
fn assert_alone(
    rt: &impl Abort,
    alloc: Global,
    config: &Config,
    slot: u64,
    events: &[Event],
    begin: &str,
)
    requires { IsTrue (is_good config.now) }
{
    assert!(rt; slot < config.tenants.len() as u64);
    let told = solo(alloc, config, slot, events).expect(rt, "memory");
    assert_told(rt, alloc, &told, BOTH, begin);
}

#[test]
fn a_tenant_alone_is_told_the_same(rt: HostRuntime) {
    let alloc = rt.alloc();
    let config = config_of(&rt, alloc, TWO_SHARDS);
    let events = events_of(&rt, alloc, &config.tenants, BOTH, "").expect(&rt, "memory");
    assert!(rt; config.tenants.len() == 2);
    assert_alone(&rt, alloc, &config, 0, &events, "acme ");
    assert_alone(&rt, alloc, &config, 1, &events, "beta ");
}

/// Returns whether no reply says that memory was refused.
fn is_spared(told: &[Reply]) -> bool {
    for reply in told {
        if let Reply::Refused(Fault::OutOfMemory) = reply {
            return false;
        }
    }
    true
}

/// The replies to all events, if memory was never refused. Two nodes are left.
fn told_to_all(rt: &impl Abort, alloc: Global) -> Option<Vec<Reply>> {
    let config = config_of(rt, alloc, TWO_SHARDS);
    let events = events_of(rt, alloc, &config.tenants, BOTH, "").ok()?;
    let (world, told) = run_world(alloc, config, &events).ok()?;
    assert!(rt; world.nodes().len() == 2);
    if is_spared(&told) { Some(told) } else { None }
}

/// The replies to the first tenant alone, if memory was never refused.
fn told_to_one(rt: &impl Abort, alloc: Global) -> Option<Vec<Reply>> {
    let config = config_of(rt, alloc, TWO_SHARDS);
    let events = events_of(rt, alloc, &config.tenants, BOTH, "").ok()?;
    assert!(rt; config.tenants.len() == 2);
    let told = solo(alloc, &config, 0, &events).ok()?;
    if is_spared(&told) { Some(told) } else { None }
}

/// One request for memory may be refused: then the same run is made once more.
#[test]
fn refused_memory_in_whole_runs(rt: HostRuntime) {
    let alloc = rt.alloc();
    let told = match told_to_all(&rt, alloc) {
        Some(told) => told,
        None => told_to_all(&rt, alloc).expect(&rt, "memory"),
    };
    assert_told(&rt, alloc, &told, BOTH, "");
    let told = match told_to_one(&rt, alloc) {
        Some(told) => told,
        None => told_to_one(&rt, alloc).expect(&rt, "memory"),
    };
    assert_told(&rt, alloc, &told, BOTH, "acme ");
}

const SCRIPT: &[u8] = b"cluster 1 1 5000 1
tenant acme 00000000-0000-0000-0000-000000000001 0 100 10000 10 4 20 8 1000
tenant beta {00000000-0000-0000-0000-000000000002} 7 100 10000 10 4 20 8 1000
begin
zeta open a 0

acme fly
acme
acme put a 1 X 10
acme put a 1 x 10
acme open a 0
beta open a 0
acme ctx a
beta ctx a
acme put a 1 x 10
beta put a 1 x 99
acme step a 0
beta step a 0
acme get a 1 x y
acme step a 1
acme step a 1
beta done a 0";

const ANSWER: &[u8] = b"- E02
- E02
acme E01
acme E01
acme E10
acme E03
acme opened
beta opened
acme context 1
beta context 1
acme started
beta started
acme stored x 1.0
beta stored x 8.0
acme started
acme working
acme x=10@1.0 y=none@0.0
beta E06
";

/// 0 for an answered script, the number of the bad line and 100 more, or the number of the fault.
fn code(ran: Result<(), RunFault<BadConfig>>) -> u64 {
    match ran {
        Ok(()) => 0,
        Err(RunFault::Refused(bad)) => bad.line.saturating_add(100),
        Err(RunFault::OutOfMemory) => 23,
        Err(RunFault::ReadFault) => 26,
        Err(RunFault::WriteFault) => 27,
    }
}

/// If a reader fails after some reads, a prefix is written, and no read follows.
fn assert_read_fault(rt: &impl Abort, alloc: Global, reads: u64) {
    let mut source = Source::new(Pieces {
        bytes: SCRIPT,
        len: 1,
        reads_to_failure: reads,
    });
    let mut sink = Sink::new(Vec::new(alloc));
    assert!(rt; code(run_script(alloc, &mut source, &mut sink)) == 26);
    assert!(rt; source.failures() == 1);
    let written = sink.into_inner();
    assert!(rt;
        ANSWER.starts_with(written.as_slice()),
        "after {reads} reads"
    );
}

#[test]
fn failing_readers_leave_a_front(rt: HostRuntime) {
    for reads in 0..SCRIPT.len() as u64 {
        assert_read_fault(&rt, rt.alloc(), reads);
    }
}

#[test]
fn failing_writers_leave_a_front(rt: HostRuntime) {
    let mut source = Source::new(SCRIPT);
    let mut sink = Sink::new(Trickle {
        taken: Vec::new(rt.alloc()),
        writes_to_failure: 1,
    });
    assert!(rt; code(run_script(rt.alloc(), &mut source, &mut sink)) == 27);
    assert!(rt; sink.failures() == 1);
    assert!(rt; sink.into_inner().taken.as_slice() == b"-".as_slice());
}

#[test]
fn refused_memory_leaves_a_prefix_of_the_replies(rt: HostRuntime) {
    let mut source = Source::new(SCRIPT);
    let mut sink = Sink::new(Vec::new(rt.alloc()));
    let is_whole = run_script(rt.alloc(), &mut source, &mut sink).is_ok();
    let written = sink.into_inner();
    assert!(&rt; is_whole || ANSWER.starts_with(written.as_slice()));
}

/// Asserts what is written of a script whose last line never ends, in 100 turns.
fn assert_endless(rt: &impl Abort, alloc: Global, bytes: &[u8], answer: &[u8]) {
    let mut source = Source::new(Endless { bytes });
    let mut sink = Sink::new(Vec::new(alloc));
    let mut world: Option<World> = None;
    let ran = run_script_in(alloc, 100, &mut source, &mut sink, &mut world);
    assert!(rt; code(ran) == 26);
    assert!(rt; source.reads() == 100 && source.failures() == 0);
    assert!(rt; sink.into_inner().as_slice() == answer);
}

#[test]
fn a_line_that_never_ends_meets_the_bound_on_turns(rt: HostRuntime) {
    assert_endless(&rt, rt.alloc(), SCRIPT, &ANSWER[..ANSWER.len() - 9]);
    assert_endless(&rt, rt.alloc(), &SCRIPT[..7], b"");
}
