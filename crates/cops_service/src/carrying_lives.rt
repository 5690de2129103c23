//! Carries and collects for tenants that come and go: each work item in its own life.
ghost use Rattle.std.specs.Prelude.{◌≡◌};
ghost use Rattle.cops_service.specs.Calling.{DoneForEach};
ghost use Rattle.cops_service.specs.HostedCrews.{CarriesInLife, CarriesLives, CollectsInLife, CollectsLives};

use crate::carrying::{after_collection, after_stream, came_of, carry_stream, is_between, is_node};
use crate::dues::{Collected, Collecting, Dues};
use crate::living::LivingDesk;
use crate::notes::{Stream, TenantNode};
use crate::waiting::Waiting;
use cops_node::{NodeCall, Nodes};
use cops_wire::Moments;
use std::sync::Wait;
use std::thread;
use std::time::{Clock, Duration};

// Work items gather for this many milliseconds before the collector takes them.
const REST: u64 = 5;

// Carries a stream's entries, in its life. A stream that can't go on waits.
fn carry_life<R: Wait, T: Moments>(
    nodes: &mut LivingDesk<'_, R>,
    moments: &mut T,
    stream: &Stream,
    waiting: &mut Waiting,
) -> bool
    ensures config { nodes.new.config.now ≡ nodes.old.config.now }
    ensures desk { (nodes.new.nodes.desk.cluster.now ≡ nodes.old.nodes.desk.cluster.now)
        × (nodes.new.nodes.desk.seat.ghost_name ≡ nodes.old.nodes.desk.seat.ghost_name) }
    ensures account { nodes.new.nodes.desk.seat.now.account
        ≡ nodes.old.nodes.desk.seat.now.account }
    ensures carries { CarriesInLife nodes.old.config.now nodes.old.nodes.desk.cluster.now stream.now
        nodes.old.nodes.desk.seat.now nodes.new.nodes.desk.seat.now }
{
    let config = nodes.config;
    if !is_between(config, stream) {
        return false;
    }
    let rt = nodes.nodes.desk.rt;
    let notes = nodes.notes;
    nodes.turn_to(stream.from.slot, stream.from.life);
    let tried = carry_stream(rt, nodes, config, stream, moments);
    after_stream(rt, notes, stream, &tried, moments.now(), waiting);
    tried.carried
}

// Carries the entries of these streams, one stream after another. Returns `true` if anything was carried.
fn carry_each<R: Wait, T: Moments>(
    nodes: &mut LivingDesk<'_, R>,
    moments: &mut T,
    streams: &[Stream],
    waiting: &mut Waiting,
) -> bool
    ensures config { nodes.new.config.now ≡ nodes.old.config.now }
    ensures desk { (nodes.new.nodes.desk.cluster.now ≡ nodes.old.nodes.desk.cluster.now)
        × (nodes.new.nodes.desk.seat.ghost_name ≡ nodes.old.nodes.desk.seat.ghost_name) }
    ensures account { nodes.new.nodes.desk.seat.now.account
        ≡ nodes.old.nodes.desk.seat.now.account }
    ensures carries { DoneForEach
        (CarriesInLife nodes.old.config.now nodes.old.nodes.desk.cluster.now) streams.now
        nodes.old.nodes.desk.seat.now nodes.new.nodes.desk.seat.now }
{
    let mut carried = false;
    for stream in streams {
        carried |= carry_life(nodes, moments, stream, waiting);
    }
    carried
}

/// Carries streams of the list until it has ended and no stream goes on.
pub(crate) fn carry_lives<R: Wait + Clock, T: Moments>(
    nodes: &mut LivingDesk<'_, R>,
    moments: &mut T,
    streams: &mut Vec<Stream>,
    waiting: &mut Waiting,
)
    ensures config { nodes.new.config.now ≡ nodes.old.config.now }
    ensures desk { (nodes.new.nodes.desk.cluster.now ≡ nodes.old.nodes.desk.cluster.now)
        × (nodes.new.nodes.desk.seat.ghost_name ≡ nodes.old.nodes.desk.seat.ghost_name) }
    ensures account { nodes.new.nodes.desk.seat.now.account
        ≡ nodes.old.nodes.desk.seat.now.account }
    ensures carries { CarriesLives nodes.old.config.now nodes.old.nodes.desk.cluster.now
        nodes.old.nodes.desk.seat.now nodes.new.nodes.desk.seat.now }
{
    let rt = nodes.nodes.desk.rt;
    let notes = nodes.notes;
    // Streams that wait are tried once more at the end, and again after something was carried.
    let mut is_tried = false;
    for _ in rt.forever() {
        let now = moments.now();
        waiting.note_ready(rt, notes, now);
        if !notes.sent.take(rt, streams, waiting.rest(now)) {
            if is_tried {
                return;
            }
            is_tried = true;
            waiting.note_all(rt, notes);
        }
        let carried = carry_each(nodes, moments, streams.as_slice(), waiting);
        is_tried = is_tried && !carried;
        streams.clear();
    }
}

// Collects the tenant's part of a node, in its life.
fn collect_life<R: Wait>(
    nodes: &mut LivingDesk<'_, R>,
    place: &TenantNode,
    moment: u64,
) -> Collected
    ensures config { nodes.new.config.now ≡ nodes.old.config.now }
    ensures desk { (nodes.new.nodes.desk.cluster.now ≡ nodes.old.nodes.desk.cluster.now)
        × (nodes.new.nodes.desk.seat.ghost_name ≡ nodes.old.nodes.desk.seat.ghost_name) }
    ensures account { nodes.new.nodes.desk.seat.now.account
        ≡ nodes.old.nodes.desk.seat.now.account }
    ensures collects { CollectsInLife nodes.old.config.now nodes.old.nodes.desk.cluster.now
        place.now nodes.old.nodes.desk.seat.now nodes.new.nodes.desk.seat.now }
{
    if !is_node(nodes.config, place) {
        return Collected::Removed(0);
    }
    nodes.turn_to(place.slot, place.life);
    came_of(nodes.step(place.id, place.slot, moment, NodeCall::Collect))
}

// Collects at these places, one after another. If versions were removed, streams to that place may go on.
fn collect_each<R: Wait, T: Moments>(
    nodes: &mut LivingDesk<'_, R>,
    moments: &mut T,
    places: &[TenantNode],
    dues: &mut Dues,
)
    ensures config { nodes.new.config.now ≡ nodes.old.config.now }
    ensures desk { (nodes.new.nodes.desk.cluster.now ≡ nodes.old.nodes.desk.cluster.now)
        × (nodes.new.nodes.desk.seat.ghost_name ≡ nodes.old.nodes.desk.seat.ghost_name) }
    ensures account { nodes.new.nodes.desk.seat.now.account
        ≡ nodes.old.nodes.desk.seat.now.account }
    ensures collects { DoneForEach
        (CollectsInLife nodes.old.config.now nodes.old.nodes.desk.cluster.now) places.now
        nodes.old.nodes.desk.seat.now nodes.new.nodes.desk.seat.now }
{
    let rt = nodes.nodes.desk.rt;
    let notes = nodes.notes;
    for place in places {
        let moment = moments.now();
        let came = collect_life(nodes, place, moment);
        after_collection(rt, notes, place, moment, came, dues);
    }
}

/// Collects where something is due, or room is needed, until the list has ended.
pub(crate) fn collect_lives<R: Wait + Clock, T: Moments>(
    nodes: &mut LivingDesk<'_, R>,
    moments: &mut T,
    work: &mut Collecting,
)
    ensures config { nodes.new.config.now ≡ nodes.old.config.now }
    ensures desk { (nodes.new.nodes.desk.cluster.now ≡ nodes.old.nodes.desk.cluster.now)
        × (nodes.new.nodes.desk.seat.ghost_name ≡ nodes.old.nodes.desk.seat.ghost_name) }
    ensures account { nodes.new.nodes.desk.seat.now.account
        ≡ nodes.old.nodes.desk.seat.now.account }
    ensures collects { CollectsLives nodes.old.config.now nodes.old.nodes.desk.cluster.now
        nodes.old.nodes.desk.seat.now nodes.new.nodes.desk.seat.now }
{
    let rt = nodes.nodes.desk.rt;
    let notes = nodes.notes;
    for _ in rt.forever() {
        let goes_on = notes
            .grown
            .take(rt, &mut work.visits, work.dues.rest(moments.now()));
        work.sort(moments.now());
        collect_each(nodes, moments, work.places.as_slice(), &mut work.dues);
        work.dues.settle();
        if !goes_on {
            return;
        }
        thread::sleep(rt, Duration::from_millis(REST));
    }
}
