//! Serves clients while tenants come and go, and writes the audit of those that are open at the end.
ghost use Rattle.std.specs.Prelude.{◌≡◌, ◌≢◌, ◌⊎◌, ℕ, List, IsErrOf, IsTrue, IfErr, IfOk, OnOk};
ghost use Rattle.std.specs.Io.KnownBytes.{Appends};
ghost use Rattle.cops_types.specs.Counts.{HasRisen};
ghost use Rattle.cops_types.specs.Head.{Whole, head_of};
ghost use Rattle.cops_types.specs.HeadLines.{are_sizes};
ghost use Rattle.cops_types.specs.Sink.{AppendsFront, sink_failures, sink_writer};
ghost use Rattle.cops_types.specs.Source.{source_reader};
ghost use Rattle.cops_node.specs.Parts.{are_clocks};
ghost use Rattle.cops_replay.specs.AuditText.{AreNodesOfOpen, HaveTenants, open_audit_of, open_config_of, open_nodes_of};
ghost use Rattle.cops_replay.specs.AuditRuns.{AllReplaySame, HaveLines, SaysSame};
ghost use Rattle.cops_service.specs.HostedLeft.{AreLeftByLives};
ghost use Rattle.cops_cli.specs.Commands.{MayEnd, serving_lives, streams};

use crate::command_line::Service;
use crate::control::Hosted;
use crate::faults::CliFault;
use crate::host_input::hand_input_on;
use crate::moments::SteadyMoments;
use crate::serve::{
    Told, listen, options_of, shared, stop_at, tell_of_head, told_end, told_failure,
};
use cops_model::HostReply;
use cops_replay::write_open_audit;
use cops_script::read_config;
use cops_service::{
    Host, HostLines, HostReports, HostServed, ServiceEnd, open_tenants_are_at_all_nodes,
    serve_with_host,
};
use cops_types::{Config, Name, RequestError, Sink, Source};
use std::alloc::Global;
use std::fmt::{Display, Formatter};
use std::io::{Read, Write};
use std::net::{Net, TcpListener, TcpStream};
use std::sync::{Arc, Wait};
use std::thread::Threads;
use std::time::Clock;
use std::{fmt, str};

/// Returns a name as text.
fn text_of(name: &Name) -> &str {
    str::from_utf8(name.bytes()).unwrap_or("")
}

/// The text of replies to the host, a line each.
#[derive(Clone, Copy)]
struct ReplyLines<'a>(&'a [HostReply]);

impl Display for ReplyLines<'_> {
    fn fmt<W: fmt::Write>(&self, f: &mut Formatter<W>) -> fmt::Result {
        for reply in self.0 {
            match reply {
                HostReply::Admitted(name) => writeln!(f, "- admitted {}", text_of(name))?,
                HostReply::Closed(name) => writeln!(f, "- closed {}", text_of(name))?,
                HostReply::Denied(fault) => writeln!(f, "- {fault}")?,
            }
        }
        Ok(())
    }
}

impl<R: Eprint> HostReports for Told<'_, R> {
    fn told(&self, replies: &[HostReply]) {
        let _ = eprint!(self.rt; "{}", ReplyLines(replies));
    }
}

/// Hands the lines of standard input on to the host.
fn input_of<R>(rt: &R, alloc: Global) -> Result<Arc<HostLines, Global>, CliFault>
where
    R: Threads + Hosted + Eprint,
    ensures { IfErr result
        (λ fault. (fault ≡ CliFault.OutOfMemory) ⊎ (fault ≡ CliFault.ReadFault)) }
{
    let lines = shared(alloc, HostLines::new(alloc)?)?;
    hand_input_on(rt, alloc, &lines)?;
    Ok(lines)
}

/// Serves clients at the address, and follows the host's lines meanwhile.
fn serve_tenants<R>(
    rt: &R,
    alloc: Global,
    service: &Service<'_>,
    config: &Config,
) -> Result<HostServed, CliFault>
where
    R: Net<Listener = TcpListener, Stream = TcpStream> + Threads + Wait + Clock + Sync,
    R: Hosted + Eprint,
    requires sizes { IsTrue (are_sizes config.now) }
    requires clocks { IsTrue (are_clocks config.now) }
    ensures left { IfOk result (λ served. AreLeftByLives config.now served.nodes.items) }
    ensures tenants { IfOk result (λ served. HaveTenants served.roster.tenants served.nodes.items) }
    ensures threads { IfOk result (λ served. served.end ≢ ServiceEnd.NoThread) }
    ensures stopped { IfErr result (λ fault.
        (fault ≡ CliFault.OutOfMemory) ⊎ (fault ≡ CliFault.ReadFault)) }
{
    // The nodes that a service leaves have its open tenants.
    open_tenants_are_at_all_nodes::<SteadyMoments<'_, R>>();
    let listener = listen(rt, service.address)?;
    let stop = stop_at(rt, &listener)?;
    let lines = input_of(rt, alloc)?;
    let reports = Told {
        rt,
        is_verbose: service.is_verbose,
    };
    let host = Host {
        lines: &lines,
        stop: &stop,
        reports: &reports,
    };
    let options = options_of(service);
    let moments = SteadyMoments::new(rt);
    let served = serve_with_host(rt, alloc, config, &listener, options, host, moments);
    match served {
        Ok(served) => match told_end(rt, served.end, served.counts) {
            Ok(()) => Ok(served),
            Err(fault) => Err(fault),
        },
        Err(error) => Err(told_failure(rt, error)),
    }
}

/// Writes the audit of the open tenants of the nodes that are left. Then fails if the listener was lost.
fn conclude<R: Eprint, O: Write>(
    rt: &R,
    alloc: Global,
    sink: &mut Sink<O>,
    config: &Config,
    served: &HostServed,
) -> Result<(), CliFault>
    requires sizes { IsTrue (are_sizes config.now) }
    requires nodes { AreNodesOfOpen config.now served.now.roster.tenants served.now.nodes.items }
    ensures ok { OnOk result
        (Appends (O.contents (sink_writer sink.old)) (O.contents (sink_writer sink.new))
        (open_audit_of config.now served.now.roster.tenants served.now.nodes.items)) }
    ensures front { AppendsFront (O.contents (sink_writer sink.old))
        (O.contents (sink_writer sink.new))
        (open_audit_of config.now served.now.roster.tenants served.now.nodes.items) }
    ensures done { OnOk result (served.now.end ≡ ServiceEnd.Done) }
    ensures stopped { IfErr result (λ fault.
        (fault ≡ CliFault.OutOfMemory) ⊎ (fault ≡ CliFault.WriteFault)
        ⊎ (fault ≡ CliFault.ReadFault)) }
    ensures lost { IsErrOf result CliFault.ReadFault →
        Appends (O.contents (sink_writer sink.old)) (O.contents (sink_writer sink.new))
        (open_audit_of config.now served.now.roster.tenants served.now.nodes.items) }
    ensures write_fault { IsErrOf result CliFault.WriteFault →
        HasRisen (sink_failures sink.old) (sink_failures sink.new) }

    // A replay of each open tenant's records finds them all the same. So does a replay of the text, as
    // in `write_open_audit`.
    ensures replays { AllReplaySame (open_config_of config.now served.now.roster.tenants)
        (open_nodes_of config.now served.now.roster.tenants served.now.nodes.items) }
    ensures says_same { (lines rest : List (List ℕ)) →
        head_of lines ≡ Whole (open_config_of config.now served.now.roster.tenants) rest →
        HaveLines (open_config_of config.now served.now.roster.tenants)
        (open_nodes_of config.now served.now.roster.tenants served.now.nodes.items) →
        SaysSame (open_config_of config.now served.now.roster.tenants)
        (open_nodes_of config.now served.now.roster.tenants served.now.nodes.items)
        (open_audit_of config.now served.now.roster.tenants served.now.nodes.items) }
{
    let nodes = served.nodes.as_slice();
    match write_open_audit(alloc, sink, config, served.roster.tenants(), nodes) {
        Ok(()) => (),
        Err(RequestError::Refused(_)) => return Err(CliFault::WriteFault),
        Err(RequestError::OutOfMemory) => return Err(CliFault::OutOfMemory),
    }
    match served.end {
        ServiceEnd::Done => Ok(()),
        _ => {
            let _ = eprintln!(rt; "cops: the listener failed");
            Err(CliFault::ReadFault)
        }
    }
}

/// Reads a head, serves clients at an address while tenants come and go, and writes the audit.
pub(crate) fn serve_lives<R, I: Read, O: Write>(
    rt: &R,
    alloc: Global,
    service: &Service<'_>,
    source: &mut Source<I>,
    sink: &mut Sink<O>,
) -> Result<(), CliFault>
where
    R: Net<Listener = TcpListener, Stream = TcpStream> + Threads + Wait + Clock + Sync,
    R: Hosted + Eprint,
    ensures { MayEnd serving_lives
        (streams I.remaining O.contents source.old sink.old)
        (streams I.remaining O.contents source.new sink.new) result }
{
    let config = match read_config(alloc, source) {
        Ok(config) => config,
        Err(fault) => {
            tell_of_head(rt, &fault);
            return Err(CliFault::from(fault));
        }
    };
    let served = match serve_tenants(rt, alloc, service, &config) {
        Ok(served) => served,
        Err(fault) => return Err(fault),
    };
    conclude(rt, alloc, sink, &config, &served)
}
