//! The program `cops`. It answers a script, writes its audit, or serves clients. It replays or migrates
//! an audit, or extracts a part of it.
#![tactic(auto)]

ghost use Rattle.std.specs.Prelude.{◌≡◌, ◌≢◌, ◌⊎◌, map, None, IfErr, IsFalse};
ghost use Rattle.std.specs.IoError.{error_kind};
ghost use Rattle.std.specs.Process.{exit_status};
ghost use Rattle.cops_cli.specs.Commands.{streams};
ghost use Rattle.cops_cli.specs.Program.{EndsProgram, AsksForService};
ghost use Rattle.cops_cli.specs.Statuses.{status_of};

mod command_line;
mod control;
mod faults;
mod help_texts;
mod host_input;
mod moments;
mod program;
mod progress;
mod serve;
mod serve_lives;

use control::Hosted;
use cops_types::{Sink, Source};
use faults::CliFault;
use program::answer;
use progress::{Progress, WatchedReader};
use std::convert::AsStr;
use std::io::{ErrorKind, IsTerminal, Read, Write};
use std::net::{Net, TcpListener, TcpStream};
use std::process::ExitCode;
use std::rt::Env;
use std::sync::Wait;
use std::thread::Threads;
use std::time::Clock;
use std::{env, io};

/// Returns the fault of a command line that can't be read.
fn unread_words(error: &io::Error) -> CliFault
    ensures memory { error_kind error.now ≡ ErrorKind.OutOfMemory → result ≡ CliFault.OutOfMemory }
    ensures no_text { error_kind error.now ≢ ErrorKind.OutOfMemory → result ≡ CliFault.NoText }
{
    match error.kind() {
        ErrorKind::OutOfMemory => CliFault::OutOfMemory,
        _ => CliFault::NoText,
    }
}

/// Returns the words of the command line, the program's name first.
fn words_of<R: Env + AllocGlobal>(rt: &R) -> Result<Vec<String>, CliFault>
    ensures { IfErr result (λ fault. (fault ≡ CliFault.OutOfMemory) ⊎ (fault ≡ CliFault.NoText)) }
{
    let words = match env::args(rt) {
        Ok(words) => words,
        Err(error) => return Err(unread_words(&error)),
    };
    Ok(words.collect(rt.alloc())?)
}

/// Returns `true` unless the words ask for a service, which reads a head alone.
fn reads_a_file<S: AsStr>(words: &[S]) -> bool
    ensures service { AsksForService S.text words.now → IsFalse result }
    ensures file { IsFalse result → AsksForService S.text words.now }
{
    match words.get(1) {
        Some(command) => command.as_str() != "serve",
        None => true,
    }
}

/// Returns the meter that reports the progress of the command that the words name. Reports go to a
/// terminal only, and never while input is typed.
fn progress_of<'a, S: AsStr>(rt: &'a HostRuntime, words: &[S]) -> Option<Progress<'a, HostRuntime>>
    ensures { AsksForService S.text words.now → result ≡ None }
{
    let shows_progress = rt.stderr().is_terminal() && !rt.stdin().is_terminal();
    if shows_progress && reads_a_file(words) {
        Progress::new(rt)
    } else {
        None
    }
}

/// Runs the command that the words name, and returns the exit status. The text of its fault goes to
/// standard error. The first word is the program's name.
fn run<T, S: AsStr, R: Read, O: Write>(
    rt: &T,
    words: &[S],
    source: &mut Source<R>,
    sink: &mut Sink<O>,
) -> ExitCode
where
    T: Net<Listener = TcpListener, Stream = TcpStream> + Threads + Wait + Clock + Sync,
    T: AllocGlobal + Eprint + Hosted,
    ensures { EndsProgram (map S.text words.now)
        (streams R.remaining O.contents source.old sink.old)
        (streams R.remaining O.contents source.new sink.new) (exit_status result) }
{
    let outcome = answer(rt, rt.alloc(), words, source, sink);
    end(rt, outcome)
}

/// Writes the text of a fault to standard error, and returns the exit status.
fn end<R: Eprint>(rt: &R, outcome: Result<(), CliFault>) -> ExitCode
    ensures { exit_status result ≡ status_of outcome }
{
    let Err(fault) = outcome else {
        return ExitCode::SUCCESS;
    };
    // If standard error takes nothing, the status alone tells the fault.
    let _ = rt.eprint(&fault);
    ExitCode::from(fault.status())
}

fn main(rt: HostRuntime) -> ExitCode {
    let words = match words_of(&rt) {
        Ok(words) => words,
        Err(fault) => return end(&rt, Err(fault)),
    };
    let progress = progress_of(&rt, words.as_slice());
    let reads_ahead = reads_a_file(words.as_slice());
    let mut source = Source::new(WatchedReader::new(rt.reader(), progress, reads_ahead));
    let mut sink = Sink::new(io::writer(&rt));
    run(&rt, words.as_slice(), &mut source, &mut sink)
}
