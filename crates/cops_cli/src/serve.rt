//! Serves clients, and writes the audit.
ghost use Rattle.std.specs.Prelude.{◌≡◌, ◌≢◌, ◌⊎◌, ℕ, List, IsErrOf, IsTrue, IfErr, IfOk, OnOk};
ghost use Rattle.std.specs.Io.KnownBytes.{Appends};
ghost use Rattle.cops_types.specs.Counts.{HasRisen};
ghost use Rattle.cops_types.specs.Head.{Whole, head_of};
ghost use Rattle.cops_types.specs.HeadLines.{are_sizes};
ghost use Rattle.cops_types.specs.Sink.{AppendsFront, sink_failures, sink_writer};
ghost use Rattle.cops_types.specs.Source.{source_reader};
ghost use Rattle.cops_node.specs.Clusters.{new_nodes};
ghost use Rattle.cops_node.specs.Parts.{are_clocks};
ghost use Rattle.cops_replay.specs.AuditText.{AreNodesOf, audit_of, his_nodes};
ghost use Rattle.cops_replay.specs.AuditRuns.{AllReplaySame, HaveLines, SaysSame};
ghost use Rattle.cops_service.specs.Left.{AreLeft};
ghost use Rattle.cops_cli.specs.Causes.{cause_text};
ghost use Rattle.cops_cli.specs.Commands.{MayEnd, serving, streams};
ghost use Rattle.cops_cli.specs.Faults.{ended_serving_by};

use crate::command_line::Service;
use crate::control::{Hosted, follow_input};
use crate::faults::CliFault;
use crate::host_input::LineSoFar;
use crate::moments::SteadyMoments;
use cops_replay::write_audit;
use cops_script::{BadConfig, RunFault, read_config};
use cops_service::{
    Cause, Counts, Listening, Options, Reports, Served, ServiceEnd, Stop, serve_with,
};
use cops_types::{Config, RequestError, Sink, Source};
use std::alloc::{AllocError, Global};
use std::io::{Read, Write};
use std::net::{Net, SocketAddr, TcpListener, TcpStream};
use std::sync::{Arc, Wait};
use std::thread::Threads;
use std::time::Clock;

/// Writes a service's reports to standard error.
#[derive(Drop)]
pub(crate) struct Told<'a, R> {
    pub(crate) rt: &'a R,
    pub(crate) is_verbose: bool,
}

impl<R: Eprint> Reports for Told<'_, R> {
    fn ended(&self, peer: &SocketAddr, cause: Cause) {
        if self.is_verbose {
            let _ = eprintln!(self.rt; "cops: connection {peer}: {}", text_of(cause));
        }
    }

    fn accepts_again(&self, failures: u64) {
        let _ = eprintln!(self.rt; "cops: accepting again after {failures} failures");
    }
}

fn text_of(cause: Cause) -> &'static str
    ensures { result.now ≡ cause_text cause }
{
    match cause {
        Cause::Refused => "refused",
        Cause::BrokenFrame => "broken frame",
        Cause::CutOff => "cut off",
        Cause::Idle => "idle",
        Cause::ReadingFailed => "reading failed",
        Cause::WritingFailed => "writing failed",
        Cause::OutOfMemory => "out of memory",
    }
}

/// Reports that the head couldn't be read.
pub(crate) fn tell_of_head<R: Eprint>(rt: &R, fault: &RunFault<BadConfig>) {
    if matches!(fault, RunFault::ReadFault) {
        let _ = eprintln!(rt; "cops: cannot read standard input");
    }
}

/// Listens at the address, and says where.
pub(crate) fn listen<R>(rt: &R, address: &str) -> Result<TcpListener, CliFault>
where
    R: Net<Listener = TcpListener, Stream = TcpStream> + Eprint,
    ensures { IfErr result (λ fault. fault ≡ CliFault.ReadFault) }
{
    let listener = match TcpListener::bind(rt, address) {
        Ok(listener) => listener,
        Err(error) => {
            let _ = eprintln!(rt; "cops: cannot listen on {address}: {error}");
            return Err(CliFault::ReadFault);
        }
    };
    if let Ok(bound) = listener.local_addr() {
        let _ = eprintln!(rt; "cops: listening on {bound}");
    }
    Ok(listener)
}

/// Returns a value that threads share. Fails with `AllocError` if memory runs out.
pub(crate) fn shared<T: Drop>(alloc: Global, value: T) -> Result<Arc<T, Global>, AllocError> {
    Ok(Arc::new(alloc, value)?)
}

/// Returns the stop signal of the service that listens here.
pub(crate) fn stop_at<R: Eprint>(rt: &R, listener: &TcpListener) -> Result<Stop, CliFault>
    ensures { IfErr result (λ fault. fault ≡ CliFault.ReadFault) }
{
    let Ok(stop) = Stop::of(listener) else {
        let _ = eprintln!(rt; "cops: the listener failed");
        return Err(CliFault::ReadFault);
    };
    Ok(stop)
}

/// Lets a line of standard input end the service that listens here. `lines` lines have come before.
fn stop_of<R>(
    rt: &R,
    alloc: Global,
    listener: &TcpListener,
    lines: u64,
) -> Result<Arc<Stop, Global>, CliFault>
where
    R: Threads + Hosted + Eprint,
    ensures { IfErr result
        (λ fault. (fault ≡ CliFault.OutOfMemory) ⊎ (fault ≡ CliFault.ReadFault)) }
{
    let stop = stop_at(rt, listener)?;
    let stop = shared(alloc, stop)?;
    let line = LineSoFar::new(alloc)?;
    if follow_input(rt, &stop, line, lines).is_err() {
        let _ = eprintln!(rt; "cops: cannot start a thread");
        return Err(CliFault::ReadFault);
    }
    Ok(stop)
}

/// Returns the options of the service.
pub(crate) fn options_of(service: &Service<'_>) -> Options
    ensures { result
        ≡ record { workers = service.now.workers; connections = service.now.connections; idle = service.now.idle } }
{
    Options {
        workers: service.workers,
        connections: service.connections,
        idle: service.idle,
    }
}

/// Serves clients at the address. `lines` lines of standard input have come before.
fn serve_clients<R>(
    rt: &R,
    alloc: Global,
    service: &Service<'_>,
    config: &Config,
    lines: u64,
) -> Result<Served, CliFault>
where
    R: Net<Listener = TcpListener, Stream = TcpStream> + Threads + Wait + Clock + Sync,
    R: Hosted + Eprint,
    requires sizes { IsTrue (are_sizes config.now) }
    requires clocks { IsTrue (are_clocks config.now) }
    ensures left { IfOk result (λ served. AreLeft (new_nodes config.now).nodes served.nodes.items) }
    ensures threads { IfOk result (λ served. served.end ≢ ServiceEnd.NoThread) }
    ensures stopped { IfErr result
        (λ fault. (fault ≡ CliFault.OutOfMemory) ⊎ (fault ≡ CliFault.ReadFault)) }
{
    let listener = listen(rt, service.address)?;
    let stop = stop_of(rt, alloc, &listener, lines)?;
    let options = options_of(service);
    let told = Told {
        rt,
        is_verbose: service.is_verbose,
    };
    let moments = SteadyMoments::new(rt);
    let listening = Listening {
        listener: &listener,
        options,
        stop: &stop,
        reports: &told,
    };
    let served = serve_with(rt, alloc, config, listening, moments);
    match served {
        Ok(served) => match told_end(rt, served.end, served.counts) {
            Ok(()) => Ok(served),
            Err(fault) => Err(fault),
        },
        Err(error) => Err(told_failure(rt, error)),
    }
}

/// Reports a service that left nothing: memory ran out, or a thread couldn't be started. Returns the fault.
pub(crate) fn told_failure<R: Eprint>(rt: &R, error: RequestError) -> CliFault
    ensures { result ≡ ended_serving_by error }
{
    match error {
        RequestError::OutOfMemory => CliFault::OutOfMemory,
        RequestError::Refused(_) => {
            let _ = eprintln!(rt; "cops: cannot start a thread");
            CliFault::ReadFault
        }
    }
}

/// Reports the counts. Fails if a thread couldn't be started, since nothing was served then.
pub(crate) fn told_end<R: Eprint>(rt: &R, end: ServiceEnd, counts: Counts) -> Result<(), CliFault>
    ensures threads { OnOk result (end ≢ ServiceEnd.NoThread) }
    ensures stopped { IfErr result
        (λ fault. (fault ≡ CliFault.ReadFault) × (end ≡ ServiceEnd.NoThread)) }
{
    let Counts {
        connections,
        requests,
        refused,
    } = counts;
    let _ = eprintln!(rt;
        "cops: served {connections} connections, {requests} requests, {refused} refused"
    );
    match end {
        ServiceEnd::NoThread => {
            let _ = eprintln!(rt; "cops: cannot start a thread");
            Err(CliFault::ReadFault)
        }
        _ => Ok(()),
    }
}

/// Writes the audit of the nodes that are left. Then fails if the listener was lost.
fn conclude<R: Eprint, O: Write>(
    rt: &R,
    alloc: Global,
    sink: &mut Sink<O>,
    config: &Config,
    served: &Served,
) -> Result<(), CliFault>
    requires sizes { IsTrue (are_sizes config.now) }
    requires nodes { AreNodesOf config.now served.now.nodes.items }
    ensures ok { OnOk result
        (Appends (O.contents (sink_writer sink.old)) (O.contents (sink_writer sink.new))
        (audit_of config.now served.now.nodes.items)) }
    ensures front { AppendsFront (O.contents (sink_writer sink.old))
        (O.contents (sink_writer sink.new))
        (audit_of config.now served.now.nodes.items) }
    ensures done { OnOk result (served.now.end ≡ ServiceEnd.Done) }
    ensures stopped { IfErr result (λ fault.
        (fault ≡ CliFault.OutOfMemory) ⊎ (fault ≡ CliFault.WriteFault)
        ⊎ (fault ≡ CliFault.ReadFault)) }
    ensures lost { IsErrOf result CliFault.ReadFault →
        Appends (O.contents (sink_writer sink.old)) (O.contents (sink_writer sink.new))
        (audit_of config.now served.now.nodes.items) }
    ensures write_fault { IsErrOf result CliFault.WriteFault →
        HasRisen (sink_failures sink.old) (sink_failures sink.new) }

    // A replay of each tenant's records finds them all the same. So does a replay of the text, as in
    // `write_audit`.
    ensures replays { AllReplaySame config.now (his_nodes config.now served.now.nodes.items) }
    ensures says_same { (lines rest : List (List ℕ)) → head_of lines ≡ Whole config.now rest →
        HaveLines config.now (his_nodes config.now served.now.nodes.items) →
        SaysSame config.now (his_nodes config.now served.now.nodes.items)
        (audit_of config.now served.now.nodes.items) }
{
    match write_audit(alloc, sink, config, served.nodes.as_slice()) {
        Ok(()) => (),
        Err(RequestError::Refused(_)) => return Err(CliFault::WriteFault),
        Err(RequestError::OutOfMemory) => return Err(CliFault::OutOfMemory),
    }
    match served.end {
        ServiceEnd::Done => Ok(()),
        _ => {
            let _ = eprintln!(rt; "cops: the listener failed");
            Err(CliFault::ReadFault)
        }
    }
}

/// Reads a head, serves clients at an address, and writes the audit.
pub(crate) fn serve<R, I: Read, O: Write>(
    rt: &R,
    alloc: Global,
    service: &Service<'_>,
    source: &mut Source<I>,
    sink: &mut Sink<O>,
) -> Result<(), CliFault>
where
    R: Net<Listener = TcpListener, Stream = TcpStream> + Threads + Wait + Clock + Sync,
    R: Hosted + Eprint,
    ensures { MayEnd serving
        (streams I.remaining O.contents source.old sink.old)
        (streams I.remaining O.contents source.new sink.new) result }
{
    let config = match read_config(alloc, source) {
        Ok(config) => config,
        Err(fault) => {
            tell_of_head(rt, &fault);
            return Err(CliFault::from(fault));
        }
    };
    // A head is the line of the cluster, one for each tenant, and the line that ends it.
    let lines = (config.tenants.len() as u64).saturating_add(2);
    let served = match serve_clients(rt, alloc, service, &config, lines) {
        Ok(served) => served,
        Err(fault) => return Err(fault),
    };
    conclude(rt, alloc, sink, &config, &served)
}
