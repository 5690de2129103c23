//! A run of tenants who come and go: who gets which slot, what each life begins with, and which
//! replies are the host's. Run with the Nth request for memory refused, for each N.
ghost use Rattle.std.specs.Prelude.{IsTrue};
ghost use Rattle.std.specs.List.{AllByRecursion};
ghost use Rattle.cops_types.specs.HeadLines.{is_tenant};
ghost use Rattle.cops_world.specs.HostRuns.{IsWithinLimits};

use crate::life_tests::{ACME_AND_BETA, GAMA, first_tenant};
use crate::test_worlds::{act_of, config_of, says};
use crate::{Doing, HostEvent, HostReply, LifeReply, LoneLife, Reply, run_lives, solo_lives};
use cops_types::{Fault, Name, Tenant};
use std::alloc::Global;
use std::process::Abort;

/// The tenant of a slot acts.
fn own<'a>(rt: &impl Abort, slot: u64, line: &'a str) -> HostEvent<'a>
    ensures { IsWithinLimits result }
{
    HostEvent {
        slot,
        doing: Doing::Own(act_of(rt, line.as_bytes())),
    }
}

/// The host gives the slot to a tenant.
fn admit<'a>(slot: u64, tenant: &Tenant) -> HostEvent<'a>
    requires { IsTrue (is_tenant tenant.now) }
    ensures { IsWithinLimits result }
{
    HostEvent {
        slot,
        doing: Doing::Admit(*tenant),
    }
}

/// The host takes the slot from its tenant.
fn close<'a>(slot: u64) -> HostEvent<'a>
    ensures { IsWithinLimits result }
{
    HostEvent {
        slot,
        doing: Doing::Close,
    }
}

/// Returns whether a reply says that memory was refused.
fn is_lack(reply: &LifeReply) -> bool {
    match reply {
        LifeReply::ToHost(HostReply::Denied(fault)) => *fault == Fault::OutOfMemory,
        LifeReply::ToHost(_) => false,
        LifeReply::ToTenant(reply) => matches!(reply, Reply::Refused(Fault::OutOfMemory)),
    }
}

/// Returns the replies to the events. If memory is refused, the run is made once more.
fn told<'a>(rt: &impl Abort, alloc: Global, events: &[HostEvent<'a>]) -> Vec<LifeReply>
    requires { AllByRecursion IsWithinLimits events.now }
{
    if let Ok(told) = run_lives(alloc, config_of(rt, alloc, ACME_AND_BETA), events) {
        if !told.as_slice().iter().any(is_lack) {
            return told;
        }
    }
    run_lives(alloc, config_of(rt, alloc, ACME_AND_BETA), events).expect(rt, "memory")
}

/// Returns whether the name follows the word in a text.
fn names(text: &str, word: &str, name: &Name) -> bool {
    match text.strip_prefix(word) {
        Some(rest) => rest.as_bytes() == name.bytes(),
        None => false,
    }
}

/// Asserts that a reply has this text. One to the host begins with a hyphen.
fn assert_said(rt: &impl Abort, alloc: Global, reply: &LifeReply, text: &str) {
    let is_said = match reply {
        LifeReply::ToTenant(reply) => says(rt, alloc, reply, text),
        LifeReply::ToHost(HostReply::Admitted(name)) => names(text, "- admitted ", name),
        LifeReply::ToHost(HostReply::Closed(name)) => names(text, "- closed ", name),
        LifeReply::ToHost(HostReply::Denied(fault)) => match text.strip_prefix("- ") {
            Some(text) => says(rt, alloc, &Reply::Refused(*fault), text),
            None => false,
        },
    };
    assert!(rt; is_said, "{text}");
}

/// Asserts the replies, one text a line.
fn assert_told(rt: &impl Abort, alloc: Global, told: &[LifeReply], texts: &str) {
    let mut left = texts.lines();
    for reply in told {
        match left.next() {
            Some(text) => assert_said(rt, alloc, reply, text),
            None => panic!(rt; "a text for each reply"),
        }
    }
    assert!(rt; left.next().is_none());
}

#[test]
fn refused_memory_in_lives(rt: HostRuntime) {
    let alloc = rt.alloc();
    let gama = first_tenant(&rt, alloc, GAMA);
    let events = [
        own(&rt, 0, "acme open a 0"),
        own(&rt, 0, "acme ctx a"),
        close(0),
        own(&rt, 0, "acme ctx a"),
        close(0),
        admit(1, &gama),
        admit(0, &gama),
        own(&rt, 0, "gama ctx a"),
        own(&rt, 1, "beta open a 0"),
    ];
    let told = told(&rt, alloc, &events);
    let texts =
        "opened\ncontext 1\n- closed acme\n- E02\n- E02\n- E28\n- admitted gama\nE03\nopened";
    assert_told(&rt, alloc, &told, texts);
}

/// Returns whether no reply in these lives says that memory was refused.
fn are_spared(lives: &[LoneLife]) -> bool {
    for life in lives {
        for reply in life.told.as_slice() {
            if let Reply::Refused(Fault::OutOfMemory) = reply {
                return false;
            }
        }
    }
    true
}

/// Returns the lives of a slot alone. If memory is refused, the run is made once more.
fn told_alone<'a>(
    rt: &impl Abort,
    alloc: Global,
    slot: u64,
    events: &[HostEvent<'a>],
) -> Vec<LoneLife>
    requires { AllByRecursion IsWithinLimits events.now }
{
    let config = config_of(rt, alloc, ACME_AND_BETA);
    if let Ok(lives) = solo_lives(alloc, &config, slot, events) {
        if are_spared(&lives) {
            return lives;
        }
    }
    solo_lives(alloc, &config, slot, events).expect(rt, "memory")
}

/// Asserts the tenant of a life, and the replies to it, one text a line.
fn assert_life(rt: &impl Abort, alloc: Global, life: &LoneLife, name: &str, texts: &str) {
    assert!(rt; life.tenant.name.bytes() == name.as_bytes(), "{name}");
    let mut left = texts.lines();
    for reply in life.told.as_slice() {
        match left.next() {
            Some(text) => assert!(rt; says(rt, alloc, reply, text), "{text}"),
            None => panic!(rt; "a text for each reply"),
        }
    }
    assert!(rt; left.next().is_none());
}

/// Beta goes while acme stays, and gama gets its slot: all together, and each slot alone.
#[test]
fn refused_memory_in_lives_alone(rt: HostRuntime) {
    let alloc = rt.alloc();
    let gama = first_tenant(&rt, alloc, GAMA);
    let events = [
        own(&rt, 1, "beta open a 0"),
        own(&rt, 1, "beta ctx a"),
        own(&rt, 1, "beta put a 1 x 99"),
        own(&rt, 0, "acme open a 0"),
        own(&rt, 1, "beta done a 0"),
        close(1),
        own(&rt, 1, "beta ctx a"),
        admit(1, &gama),
        own(&rt, 1, "gama open a 0"),
        own(&rt, 1, "gama ctx a"),
        own(&rt, 1, "gama get a 1 x"),
        own(&rt, 1, "gama done a 0"),
    ];
    let told = told(&rt, alloc, &events);
    let texts =
        "opened\ncontext 1\nstarted\nopened\nstored x 1.0\n- closed beta\n- E02\n- admitted gama\nopened\ncontext 1\nstarted\nx=none@0.0";
    assert_told(&rt, alloc, &told, texts);
    let lives = told_alone(&rt, alloc, 1, &events);
    assert!(&rt; lives.len() == 2);
    assert_life(
        &rt,
        alloc,
        &lives[0],
        "beta",
        "opened\ncontext 1\nstarted\nstored x 1.0",
    );
    assert_life(
        &rt,
        alloc,
        &lives[1],
        "gama",
        "opened\ncontext 1\nstarted\nx=none@0.0",
    );
    let lives = told_alone(&rt, alloc, 0, &events);
    assert!(&rt; lives.len() == 1);
    assert_life(&rt, alloc, &lives[0], "acme", "opened");
    assert!(&rt; told_alone(&rt, alloc, 2, &events).is_empty());
}
