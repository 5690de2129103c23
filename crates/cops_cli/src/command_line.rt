//! Reads the command line.
ghost use Rattle.std.specs.Prelude.{◌≡◌, ◌⊎◌, [], List, codes, map, option_map, false, IfOk, IfErr, OnOk};
ghost use Rattle.clap.specs.Matches.{found_of};
ghost use Rattle.clap.specs.Walk.{rows_of};
ghost use Rattle.clap.specs.Words.{Text, app_of, fault_of, new_app, one_of, rule_of, subcommand_of, subcommand_rows_of};
ghost use Rattle.clap.specs.declared.builder.command.Command.TheViews.{out-Command};
ghost use Rattle.cops_cli.specs.CommandLine.{ArePlain, IsAskedBy, IsRefusedAs, IsServiceIn, IsSpelledBy, address, audit, cops, extract, flag, given_tenant, migrate, number, numbered_serve, only_tenant, replay, run, serve, solo, tenant, tenant_word, with_audit, with_extract, with_migrate, with_replay, with_run, with_solo};

use crate::faults::CliFault;
use crate::help_texts::{
    AUDIT_HELP, COPS_HELP, EXTRACT_HELP, MIGRATE_HELP, REPLAY_HELP, RUN_HELP, SERVE_HELP, SOLO_HELP,
};
use clap::builder::ValueParser;
use clap::{Arg, ArgAction, ArgMatches, Command};
use std::alloc::{AllocError, Global};
use std::convert::AsStr;

/// The options of `serve`.
#[derive(Clone, Copy)]
pub(crate) struct Service<'a> {
    pub(crate) address: &'a str,
    pub(crate) workers: u64,
    pub(crate) connections: u64,
    pub(crate) idle: u64,
    pub(crate) is_verbose: bool,
    /// The tenants are those of the head throughout.
    pub(crate) has_fixed_tenants: bool,
}

#[derive(Clone, Copy)]
pub(crate) enum Task<'a> {
    /// Answers a script.
    Run,
    /// Answers a script for one tenant alone.
    Solo(&'a str),
    /// Writes the audit of a script, or the part of the tenant with this name.
    Audit(Option<&'a str>),
    /// Replays one tenant's records of an audit.
    Replay(&'a str),
    /// Extracts one tenant's part of an audit.
    Extract(&'a str),
    /// Migrates an audit of layout 1 to layout 2.
    Migrate,
    /// Serves clients.
    Serve(Service<'a>),
}

const TENANT: &str = "TENANT";

const ONLY_TENANT: &str = "tenant";

const ADDRESS: &str = "ADDRESS";

const WORKERS: &str = "workers";

const CONNECTIONS: &str = "connections";

const IDLE: &str = "idle";

const VERBOSE: &str = "verbose";

const FIXED_TENANTS: &str = "fixed-tenants";

/// The default number of workers.
const SOME_WORKERS: u64 = 4;

/// The most workers.
const MOST_WORKERS: u64 = 16;

/// The most connections to serve, and the default.
const MOST_CONNECTIONS: u64 = 4294967295;

/// The greatest `--idle`, in seconds. The default is 0, which is no limit.
const MOST_IDLE: u64 = 4294967295;

fn run_command<'a>(alloc: Global) -> Command<'a>
    ensures app { app_of result ≡ run }
    ensures no_globals { (out-Command result).has_globals ≡ false }
{
    Command::new(alloc, "run")
        .about("Answers the script on standard input")
        .after_help(RUN_HELP)
}

/// Returns the argument for a tenant's name.
fn tenant_argument<'a>(alloc: Global) -> Arg<'a>
    ensures rule { rule_of result ≡ tenant }
    ensures local { result.global ≡ false }
{
    Arg::new(alloc, TENANT)
        .help("The tenant's name")
        .required(true)
}

/// Returns `solo`, with the name of a tenant.
fn solo_command<'a>(alloc: Global) -> Result<Command<'a>, AllocError>
    ensures app { IfOk result (λ command. app_of command ≡ solo) }
    ensures no_globals { IfOk result (λ command. (out-Command command).has_globals ≡ false) }
{
    let tenant = tenant_argument(alloc);
    Command::new(alloc, "solo")
        .about("Answers the script for one tenant alone")
        .after_help(SOLO_HELP)
        .arg(tenant)
}

/// Returns the option for the name of one tenant.
fn only_tenant_argument<'a>(alloc: Global) -> Arg<'a>
    ensures rule { rule_of result ≡ only_tenant }
    ensures local { result.global ≡ false }
{
    Arg::new(alloc, ONLY_TENANT)
        .help("Write this tenant's part alone")
        .long(ONLY_TENANT)
        .value_name("NAME")
}

/// Returns `audit`, with the name of a tenant if one is given.
fn audit_command<'a>(alloc: Global) -> Result<Command<'a>, AllocError>
    ensures app { IfOk result (λ command. app_of command ≡ audit) }
    ensures no_globals { IfOk result (λ command. (out-Command command).has_globals ≡ false) }
{
    let only = only_tenant_argument(alloc);
    Command::new(alloc, "audit")
        .about("Writes the audit of the script on standard input")
        .after_help(AUDIT_HELP)
        .arg(only)
}

/// Returns `replay`, with the name of a tenant.
fn replay_command<'a>(alloc: Global) -> Result<Command<'a>, AllocError>
    ensures app { IfOk result (λ command. app_of command ≡ replay) }
    ensures no_globals { IfOk result (λ command. (out-Command command).has_globals ≡ false) }
{
    let tenant = tenant_argument(alloc);
    Command::new(alloc, "replay")
        .about("Replays a tenant's records of the audit on standard input")
        .after_help(REPLAY_HELP)
        .arg(tenant)
}

/// Returns `extract`, with the name of a tenant.
fn extract_command<'a>(alloc: Global) -> Result<Command<'a>, AllocError>
    ensures app { IfOk result (λ command. app_of command ≡ extract) }
    ensures no_globals { IfOk result (λ command. (out-Command command).has_globals ≡ false) }
{
    let tenant = tenant_argument(alloc);
    Command::new(alloc, "extract")
        .about("Writes a tenant's part of the audit on standard input")
        .after_help(EXTRACT_HELP)
        .arg(tenant)
}

fn migrate_command<'a>(alloc: Global) -> Command<'a>
    ensures app { app_of result ≡ migrate }
    ensures no_globals { (out-Command result).has_globals ≡ false }
{
    Command::new(alloc, "migrate")
        .about("Brings the audit on standard input from layout 1 to layout 2")
        .after_help(MIGRATE_HELP)
}

/// Returns the argument for the address to listen at.
fn address_argument<'a>(alloc: Global) -> Arg<'a>
    ensures rule { rule_of result ≡ address }
    ensures local { result.global ≡ false }
{
    Arg::new(alloc, ADDRESS)
        .help("Where to listen, as 127.0.0.1:7000")
        .required(true)
}

/// Returns an option for a number from the least to the greatest, with a default.
fn number_argument<'a>(
    alloc: Global,
    id: &'a str,
    least: u64,
    greatest: u64,
    given: &'a str,
    unit: &'a str,
    help: &'a str,
) -> Arg<'a>
    ensures rule { rule_of result ≡ number id.entry.now least greatest given.entry.now }
    ensures local { result.global ≡ false }
{
    Arg::new(alloc, id)
        .help(help)
        .long(id)
        .value_name(unit)
        .value_parser(ValueParser::unsigned(least, greatest))
        .default_value(given)
}

/// Returns a flag.
fn flag_argument<'a>(alloc: Global, id: &'a str, help: &'a str) -> Arg<'a>
    ensures rule { rule_of result ≡ flag id.entry.now }
    ensures local { result.global ≡ false }
{
    Arg::new(alloc, id)
        .help(help)
        .long(id)
        .action(ArgAction::SetTrue)
}

/// Returns `serve` without its arguments.
fn bare_serve_command<'a>(alloc: Global) -> Command<'a>
    ensures app { app_of result ≡ new_app (codes "serve") }
    ensures no_globals { (out-Command result).has_globals ≡ false }
{
    Command::new(alloc, "serve")
        .about("Serves clients over TCP, and then writes the audit")
        .after_help(SERVE_HELP)
}

/// Returns `serve` with an address and two numbers.
fn numbered_serve_command<'a>(alloc: Global) -> Result<Command<'a>, AllocError>
    ensures app { IfOk result (λ command. app_of command ≡ numbered_serve) }
    ensures no_globals { IfOk result (λ command. (out-Command command).has_globals ≡ false) }
{
    let address = address_argument(alloc);
    let help = "How many clients are served at once";
    let workers = number_argument(alloc, WORKERS, 1, MOST_WORKERS, "4", "N", help);
    let help = "After how many connections it ends";
    let connections = number_argument(
        alloc,
        CONNECTIONS,
        1,
        MOST_CONNECTIONS,
        "4294967295",
        "N",
        help,
    );
    bare_serve_command(alloc)
        .arg(address)?
        .arg(workers)?
        .arg(connections)
}

/// Returns `serve` with all its options.
fn serve_command<'a>(alloc: Global) -> Result<Command<'a>, AllocError>
    ensures app { IfOk result (λ command. app_of command ≡ serve) }
    ensures no_globals { IfOk result (λ command. (out-Command command).has_globals ≡ false) }
{
    let help = "After how many idle seconds a connection is ended; 0 is never";
    let idle = number_argument(alloc, IDLE, 0, MOST_IDLE, "0", "SECONDS", help);
    let help = "Say on standard error why a connection failed";
    let verbose = flag_argument(alloc, VERBOSE, help);
    let help = "Keep the head's tenants; of later lines, take 'end' alone";
    let fixed = flag_argument(alloc, FIXED_TENANTS, help);
    numbered_serve_command(alloc)?
        .arg(idle)?
        .arg(verbose)?
        .arg(fixed)
}

/// Returns the command line with its first subcommand.
fn first_commands<'a>(alloc: Global) -> Result<Command<'a>, AllocError>
    ensures { IfOk result (λ command. app_of command ≡ with_run) }
{
    let run = run_command(alloc);
    Command::new(alloc, "cops")
        .version("0.1")
        .about("A causal store shared by isolated tenants")
        .after_help(COPS_HELP)
        .arg_required_else_help(true)
        .subcommand_required(true)
        .disable_help_subcommand(true)
        .subcommand(run)
}

/// Returns the command line with two subcommands.
fn solo_commands<'a>(alloc: Global) -> Result<Command<'a>, AllocError>
    ensures { IfOk result (λ command. app_of command ≡ with_solo) }
{
    let solo = solo_command(alloc)?;
    first_commands(alloc)?.subcommand(solo)
}

/// Returns the command line with three subcommands.
fn audit_commands<'a>(alloc: Global) -> Result<Command<'a>, AllocError>
    ensures { IfOk result (λ command. app_of command ≡ with_audit) }
{
    let audit = audit_command(alloc)?;
    solo_commands(alloc)?.subcommand(audit)
}

/// Returns the command line with four subcommands.
fn replay_commands<'a>(alloc: Global) -> Result<Command<'a>, AllocError>
    ensures { IfOk result (λ command. app_of command ≡ with_replay) }
{
    let replay = replay_command(alloc)?;
    audit_commands(alloc)?.subcommand(replay)
}

/// Returns the command line with five subcommands.
fn extract_commands<'a>(alloc: Global) -> Result<Command<'a>, AllocError>
    ensures { IfOk result (λ command. app_of command ≡ with_extract) }
{
    let extract = extract_command(alloc)?;
    replay_commands(alloc)?.subcommand(extract)
}

/// Returns the command line with six subcommands.
fn migrate_commands<'a>(alloc: Global) -> Result<Command<'a>, AllocError>
    ensures { IfOk result (λ command. app_of command ≡ with_migrate) }
{
    let migrate = migrate_command(alloc);
    extract_commands(alloc)?.subcommand(migrate)
}

fn command_line<'a>(alloc: Global) -> Result<Command<'a>, AllocError>
    ensures { IfOk result (λ command. app_of command ≡ cops) }
{
    let serve = serve_command(alloc)?;
    migrate_commands(alloc)?.subcommand(serve)
}

/// Returns the tenant that the words after a subcommand name.
fn tenant_in<'a>(matches: &ArgMatches<'a>) -> &'a str
    ensures { result.now ≡ tenant_word (rows_of (found_of matches.now)) }
{
    matches.get_str(TENANT).unwrap_or("")
}

/// Returns the tenant that the words after `audit` name, if they name one.
fn given_tenant_in<'a>(matches: &ArgMatches<'a>) -> Option<&'a str>
    ensures { option_map (λ name. name.now) result ≡ given_tenant (rows_of (found_of matches.now)) }
{
    matches.get_str(ONLY_TENANT)
}

/// Returns the number under this id, or another one if there is none.
fn number_in(matches: &ArgMatches, id: &str, other: u64) -> u64
    ensures { IsSpelledBy (one_of id.now (rows_of (found_of matches.now))) result }
{
    matches.get_one::<u64>(id).unwrap_or(other)
}

/// Returns the options of `serve`.
fn service_in<'a>(serve: &ArgMatches<'a>) -> Service<'a>
    ensures { IsServiceIn (rows_of (found_of serve.now)) result }
{
    Service {
        address: serve.get_str(ADDRESS).unwrap_or(""),
        workers: number_in(serve, WORKERS, SOME_WORKERS),
        connections: number_in(serve, CONNECTIONS, MOST_CONNECTIONS),
        idle: number_in(serve, IDLE, 0),
        is_verbose: serve.get_flag(VERBOSE),
        has_fixed_tenants: serve.get_flag(FIXED_TENANTS),
    }
}

/// Returns the task of a command line that clap accepts.
fn task_in<'a>(matches: &ArgMatches<'a>) -> Task<'a>
    ensures { (words : List Text) → subcommand_rows_of matches.now ≡ subcommand_of cops words →
        fault_of cops words ≡ [] → IsAskedBy words result }
{
    if let Some(solo) = matches.subcommand_matches("solo") {
        let tenant = tenant_in(solo);
        return Task::Solo(tenant);
    }
    if let Some(replay) = matches.subcommand_matches("replay") {
        let named = tenant_in(replay);
        return Task::Replay(named);
    }
    if let Some(extract) = matches.subcommand_matches("extract") {
        let owner = tenant_in(extract);
        return Task::Extract(owner);
    }
    if let Some(serve) = matches.subcommand_matches("serve") {
        return Task::Serve(service_in(serve));
    }
    if let Some(_migrate) = matches.subcommand_matches("migrate") {
        return Task::Migrate;
    }
    match matches.subcommand_matches("audit") {
        Some(audit) => Task::Audit(given_tenant_in(audit)),
        None => Task::Run,
    }
}

/// Reads the words, of which the first is the program's name. Fails if clap refuses them, or memory
/// runs out.
pub(crate) fn read_words<'a, S: AsStr>(alloc: Global, words: &'a [S]) -> Result<Task<'a>, CliFault>
    ensures asked { IfOk result (IsAskedBy (map S.text words.now)) }
    ensures taken { OnOk result (fault_of cops (map S.text words.now) ≡ []) }
    ensures refused { IfErr result (λ fault.
        (fault ≡ CliFault.OutOfMemory) ⊎ IsRefusedAs (map S.text words.now) fault) }
    ensures plain { ArePlain (map S.text words.now) →
        IfErr result (λ fault. fault ≡ CliFault.OutOfMemory) }
{
    let matches = command_line(alloc)?.try_get_matches_from(words)?;
    Ok(task_in(&matches))
}
