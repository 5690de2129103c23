//! Worlds, events and replies by their texts. Each call is made once more if memory is refused.
ghost use Rattle.std.specs.Prelude.{◌<◌, length, IsTrue, IfSome};
ghost use Rattle.cops_script.specs.GoodHeads.{is_good};

use crate::{Act, Event, Reply, World};
use cops_script::{HeadSoFar, parse_act, push_reply, read_head};
use cops_types::words::split_word;
use cops_types::{Config, ConfigReader, Fault, Tenants};
use std::alloc::{AllocError, Global};
use std::process::Abort;

/// Reads a line of a head.
fn read(rt: &impl Abort, alloc: Global, head: &mut HeadSoFar, line: &[u8]) -> Option<Config>
    ensures { IfSome result (λ config. IsTrue (is_good config)) }
{
    match read_head(alloc, head, line) {
        Ok(begun) => begun,
        Err(_) => match read_head(alloc, head, line) {
            Ok(begun) => begun,
            Err(_) => panic!(rt; "a line of a head"),
        },
    }
}

/// Returns the configuration that these lines give.
pub(crate) fn config_of(rt: &impl Abort, alloc: Global, head: &str) -> Config
    ensures { IsTrue (is_good result) }
{
    let mut so_far = HeadSoFar {
        reader: ConfigReader::new(),
        lines: 0,
    };
    for line in head.lines() {
        if let Some(config) = read(rt, alloc, &mut so_far, line.as_bytes()) {
            return config;
        }
    }
    panic!(rt; "a head ends with `begin`")
}

pub(crate) fn new_world(rt: &impl Abort, alloc: Global, head: &str) -> World {
    match World::new(alloc, config_of(rt, alloc, head)) {
        Ok(world) => world,
        Err(_) => World::new(alloc, config_of(rt, alloc, head)).expect(rt, "memory"),
    }
}

pub(crate) fn act_of<'a>(rt: &impl Abort, line: &'a [u8]) -> Act<'a> {
    match parse_act(line) {
        Some(act) => act,
        None => panic!(rt; "a line of some form"),
    }
}

/// Returns the event that a line is.
pub(crate) fn event_of<'a>(rt: &impl Abort, tenants: &Tenants, line: &'a str) -> Event<'a>
    ensures { result.slot < length tenants.now }
{
    let (name, _rest) = split_word(line.as_bytes());
    let slot = tenants.slot_of_name(name).expect(rt, "a tenant");
    assert!(rt; slot < tenants.len() as u64);
    Event {
        slot,
        act: act_of(rt, line.as_bytes()),
    }
}

fn text_of(alloc: Global, reply: &Reply) -> Result<Vec<u8>, AllocError> {
    let mut out = Vec::new(alloc);
    push_reply(&mut out, reply)?;
    Ok(out)
}

/// Returns whether the text of the reply is one of these.
pub(crate) fn says(rt: &impl Abort, alloc: Global, reply: &Reply, texts: &str) -> bool {
    let said = match text_of(alloc, reply) {
        Ok(said) => said,
        Err(_) => text_of(alloc, reply).expect(rt, "memory"),
    };
    for text in texts.split(" | ") {
        if said.as_slice() == text.as_bytes() {
            return true;
        }
    }
    false
}

/// Splits a row into a line and the replies that it may get.
pub(crate) fn row<'a>(rt: &impl Abort, row: &'a str) -> (&'a str, &'a str) {
    match row.split_once(" > ") {
        Some(parts) => parts,
        None => panic!(rt; "a line and a reply"),
    }
}

/// Applies an event. Returns `false` if memory is refused; else the reply has one of these texts.
fn is_told(rt: &impl Abort, alloc: Global, world: &mut World, event: &Event, texts: &str) -> bool {
    match world.apply(event) {
        Ok(reply) => {
            assert!(rt; says(rt, alloc, &reply, texts), "{texts}");
            true
        }
        Err(_) => false,
    }
}

/// Applies the events of these rows. Returns `false` if memory is refused.
pub(crate) fn goes_through(rt: &impl Abort, alloc: Global, world: &mut World, rows: &str) -> bool {
    for line in rows.lines() {
        let (line, texts) = row(rt, line);
        let event = event_of(rt, &world.config().tenants, line);
        if !is_told(rt, alloc, world, &event, texts) {
            return false;
        }
    }
    true
}

/// Applies the acts of these rows at a slot, whoever has it. Returns `false` if memory is refused.
fn goes_through_at(
    rt: &impl Abort,
    alloc: Global,
    world: &mut World,
    slot: u64,
    rows: &str,
) -> bool {
    for line in rows.lines() {
        let (line, texts) = row(rt, line);
        let act = act_of(rt, line.as_bytes());
        if !is_told(rt, alloc, world, &Event { slot, act }, texts) {
            return false;
        }
    }
    true
}

/// Applies the events of these rows. If memory is refused, those since the last empty line begin anew.
pub(crate) fn check(rt: &impl Abort, alloc: Global, world: &mut World, rows: &str) {
    for part in rows.split("\n\n") {
        if !goes_through(rt, alloc, world, part) {
            assert!(rt; goes_through(rt, alloc, world, part));
        }
    }
}

/// As `check`, with all acts at a slot.
pub(crate) fn check_at(rt: &impl Abort, alloc: Global, world: &mut World, slot: u64, rows: &str) {
    for part in rows.split("\n\n") {
        if !goes_through_at(rt, alloc, world, slot, part) {
            assert!(rt; goes_through_at(rt, alloc, world, slot, part));
        }
    }
}
