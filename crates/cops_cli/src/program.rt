//! The program over any reader and any writer.
ghost use Rattle.std.specs.Prelude.{◌≡◌, ◌⊎◌, map, IfErr, IsErrAnd};
ghost use Rattle.cops_cli.specs.CommandLine.{ArePlain};
ghost use Rattle.cops_cli.specs.Commands.{EndsTask, MayEnd, RefusesTask, answering, answering_alone, auditing, auditing_alone, command_of, extracting, migrating, replaying, serving_as, streams};
ghost use Rattle.cops_cli.specs.Faults.{IsOfWords};

use crate::command_line::{Service, Task, read_words};
use crate::control::Hosted;
use crate::faults::CliFault;
use crate::serve::serve;
use crate::serve_lives::serve_lives;
use cops_replay::{audit_part_text, audit_text_in, extract_text, migrate_text, replay_text};
use cops_script::{TURNS, run_script_in};
use cops_types::{Sink, Source};
use cops_world::{World, solo_script};
use std::alloc::Global;
use std::convert::AsStr;
use std::io::{Read, Write};
use std::mem;
use std::net::{Net, TcpListener, TcpStream};
use std::sync::Wait;
use std::thread::Threads;
use std::time::Clock;

/// Answers a script.
fn run<R: Read, O: Write>(
    alloc: Global,
    source: &mut Source<R>,
    sink: &mut Sink<O>,
) -> Result<(), CliFault>
    ensures { MayEnd answering
        (streams R.remaining O.contents source.old sink.old)
        (streams R.remaining O.contents source.new sink.new) result }
{
    let mut world: Option<World> = None;
    let ended = run_script_in(alloc, TURNS, source, sink, &mut world);
    // The process ends soon, and frees its memory at once. Freeing records, queue entries and audit
    // rows one by one took up to a quarter of a run's time.
    mem::forget(world);
    ended?;
    Ok(())
}

/// Answers a script for one tenant alone.
fn solo<R: Read, O: Write>(
    alloc: Global,
    source: &mut Source<R>,
    sink: &mut Sink<O>,
    tenant: &str,
) -> Result<(), CliFault>
    ensures { MayEnd (answering_alone tenant.now)
        (streams R.remaining O.contents source.old sink.old)
        (streams R.remaining O.contents source.new sink.new) result }
{
    solo_script(alloc, source, sink, tenant.as_bytes())?;
    Ok(())
}

/// Writes the audit of a script.
fn audit<R: Read, O: Write>(
    alloc: Global,
    source: &mut Source<R>,
    sink: &mut Sink<O>,
) -> Result<(), CliFault>
    ensures { MayEnd auditing
        (streams R.remaining O.contents source.old sink.old)
        (streams R.remaining O.contents source.new sink.new) result }
{
    let mut world = None;
    let ended = audit_text_in(alloc, source, sink, &mut world);
    // As in `run`.
    mem::forget(world);
    ended?;
    Ok(())
}

/// Writes one tenant's part of the audit of a script.
fn audit_alone<R: Read, O: Write>(
    alloc: Global,
    source: &mut Source<R>,
    sink: &mut Sink<O>,
    tenant: &str,
) -> Result<(), CliFault>
    ensures { MayEnd (auditing_alone tenant.now)
        (streams R.remaining O.contents source.old sink.old)
        (streams R.remaining O.contents source.new sink.new) result }
{
    let mut world = None;
    let ended = audit_part_text(alloc, source, sink, tenant.as_bytes(), &mut world);
    // As in `run`.
    mem::forget(world);
    ended?;
    Ok(())
}

/// Replays one tenant's records of an audit.
fn replay<R: Read, O: Write>(
    alloc: Global,
    source: &mut Source<R>,
    sink: &mut Sink<O>,
    tenant: &str,
) -> Result<(), CliFault>
    ensures { MayEnd (replaying tenant.now)
        (streams R.remaining O.contents source.old sink.old)
        (streams R.remaining O.contents source.new sink.new) result }
{
    replay_text(alloc, source, sink, tenant.as_bytes())?;
    Ok(())
}

/// Extracts one tenant's part of an audit.
fn extract<R: Read, O: Write>(
    alloc: Global,
    source: &mut Source<R>,
    sink: &mut Sink<O>,
    tenant: &str,
) -> Result<(), CliFault>
    ensures { MayEnd (extracting tenant.now)
        (streams R.remaining O.contents source.old sink.old)
        (streams R.remaining O.contents source.new sink.new) result }
{
    extract_text(alloc, source, sink, tenant.as_bytes())?;
    Ok(())
}

/// Migrates an audit of layout 1 to layout 2.
fn migrate<R: Read, O: Write>(
    alloc: Global,
    source: &mut Source<R>,
    sink: &mut Sink<O>,
) -> Result<(), CliFault>
    ensures { MayEnd migrating
        (streams R.remaining O.contents source.old sink.old)
        (streams R.remaining O.contents source.new sink.new) result }
{
    migrate_text(alloc, source, sink)?;
    Ok(())
}

/// Serves clients: the head's tenants alone, or tenants that come and go.
fn serve_clients<T, R: Read, O: Write>(
    rt: &T,
    alloc: Global,
    service: &Service<'_>,
    source: &mut Source<R>,
    sink: &mut Sink<O>,
) -> Result<(), CliFault>
where
    T: Net<Listener = TcpListener, Stream = TcpStream> + Threads + Wait + Clock + Sync,
    T: Hosted + Eprint,
    ensures { MayEnd (serving_as service.now)
        (streams R.remaining O.contents source.old sink.old)
        (streams R.remaining O.contents source.new sink.new) result }
{
    if service.has_fixed_tenants {
        serve(rt, alloc, service, source, sink)
    } else {
        serve_lives(rt, alloc, service, source, sink)
    }
}

/// Runs the command of a task.
fn perform<T, R: Read, O: Write>(
    rt: &T,
    alloc: Global,
    task: Task<'_>,
    source: &mut Source<R>,
    sink: &mut Sink<O>,
) -> Result<(), CliFault>
where
    T: Net<Listener = TcpListener, Stream = TcpStream> + Threads + Wait + Clock + Sync,
    T: Hosted + Eprint,
    ensures { MayEnd (command_of task.entry)
        (streams R.remaining O.contents source.old sink.old)
        (streams R.remaining O.contents source.new sink.new) result }
{
    match task {
        Task::Run => run(alloc, source, sink),
        Task::Solo(tenant) => solo(alloc, source, sink, tenant),
        Task::Audit(None) => audit(alloc, source, sink),
        Task::Audit(Some(tenant)) => audit_alone(alloc, source, sink, tenant),
        Task::Replay(tenant) => replay(alloc, source, sink, tenant),
        Task::Extract(tenant) => extract(alloc, source, sink, tenant),
        Task::Migrate => migrate(alloc, source, sink),
        Task::Serve(service) => serve_clients(rt, alloc, &service, source, sink),
    }
}

/// Runs the command that the words name. The first word is the program's name.
pub(crate) fn answer<T, S: AsStr, R: Read, O: Write>(
    rt: &T,
    alloc: Global,
    words: &[S],
    source: &mut Source<R>,
    sink: &mut Sink<O>,
) -> Result<(), CliFault>
where
    T: Net<Listener = TcpListener, Stream = TcpStream> + Threads + Wait + Clock + Sync,
    T: Hosted + Eprint,
    // Either the words are refused, and nothing is read or written. Or the command that they ask for ends.
    ensures ends { IsErrAnd result (RefusesTask (map S.text words.now)
        (streams R.remaining O.contents source.old sink.old)
        (streams R.remaining O.contents source.new sink.new))
        ⊎ EndsTask (map S.text words.now)
        (streams R.remaining O.contents source.old sink.old)
        (streams R.remaining O.contents source.new sink.new) result }

    // Plain words are never refused.
    ensures plain { ArePlain (map S.text words.now) → IfErr result (λ ended. IsOfWords ended → ⊥) }
{
    let task = read_words(alloc, words)?;
    perform(rt, alloc, task, source, sink)
}
