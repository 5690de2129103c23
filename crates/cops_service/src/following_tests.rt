//! Lines of the host at a running cluster, and the clients that are greeted meanwhile.
ghost use Rattle.std.specs.Prelude.{◌≡◌, ◌<◌, IsTrue, length};
ghost use Rattle.cops_types.specs.HeadLines.{are_sizes};
ghost use Rattle.cops_node.specs.Parts.{are_clocks};
ghost use Rattle.cops_service.specs.Gates.{IsSeatOf, openings};
ghost use Rattle.cops_service.specs.HostedDesks.{AreHosted};

use crate::following::follow_each;
use crate::host_lines::{HostLine, HostLines};
use crate::hosted_tests::beta;
use crate::replies::Replies;
use crate::reports::HostReports;
use crate::residents::{Residents, Site};
use crate::stops::Stop;
use crate::tests::config;
use crate::{Cluster, HostedDesk, Life, Roster, ServiceSeat, TenantHost};
use cops_model::HostReply;
use cops_node::{HostedNode, has_clocks};
use cops_types::{Config, Fault, Name, Tenant, Version};
use std::alloc::Global;
use std::cell::Cell;
use std::marker::Brand;
use std::process::Abort;
use std::sync::Wait;
use std::time::Clock;

const ADMITTED: u8 = 100;

const CLOSED: u8 = 101;

// Keeps the last reply: the number of a fault, or one of the two above.
#[derive(Drop)]
struct Last {
    told: Cell<u8>,
}

impl HostReports for Last {
    fn told(&self, replies: &[HostReply]) {
        for reply in replies {
            self.told.set(match reply {
                HostReply::Admitted(_) => ADMITTED,
                HostReply::Closed(_) => CLOSED,
                HostReply::Denied(fault) => fault.number(),
            });
        }
    }
}

// Returns the reply to a line, or 0 if it has none.
fn told<R: Wait + Clock, S: Site>(
    rt: &R,
    residents: &Residents<S>,
    stop: &Stop,
    host: &mut TenantHost<'_, R>,
    replies: &mut Replies,
    line: HostLine,
) -> u8
    requires site { host.old.desk.cluster.now ≡ S.cluster }
    requires nodes { 0 < length (openings host.old.desk.cluster.now) }
    ensures cluster { host.new.desk.cluster.now ≡ host.old.desk.cluster.now }
{
    let last = Last { told: Cell::new(0) };
    follow_each(rt, residents, stop, &last, host, replies, &[line]);
    last.told.get()
}

// Asserts who is greeted by beta's token: nobody, or beta in this life.
fn assert_greeted<R: Wait + Abort, S: Site>(
    rt: &R,
    residents: &Residents<S>,
    host: &mut TenantHost<'_, R>,
    life: Option<u64>,
)
    requires site { host.old.desk.cluster.now ≡ S.cluster }
    ensures cluster { host.new.desk.cluster.now ≡ host.old.desk.cluster.now }
{
    let desk = &mut host.desk;
    let found = residents.greet(rt, desk.cluster, desk.seat, &[2; 16]);
    assert!(rt; found.map(|resident| resident.life) == life.map(|number| Life { slot: 1, number }));
}

// Asserts the replies in a life of beta, who is greeted from its admission to its close.
fn assert_life<R: Wait + Clock + Abort, S: Site>(
    rt: &R,
    residents: &Residents<S>,
    host: &mut TenantHost<'_, R>,
    replies: &mut Replies,
    life: u64,
)
    requires site { host.old.desk.cluster.now ≡ S.cluster }
    requires nodes { 0 < length (openings host.old.desk.cluster.now) }
    ensures cluster { host.new.desk.cluster.now ≡ host.old.desk.cluster.now }
{
    let stop = Stop::never();
    assert_greeted(rt, residents, host, None);
    assert!(rt;
        told(
            rt,
            residents,
            &stop,
            host,
            replies,
            HostLine::Admit(beta(rt))
        ) == ADMITTED
    );
    assert_greeted(rt, residents, host, Some(life));
    let twice = told(
        rt,
        residents,
        &stop,
        host,
        replies,
        HostLine::Admit(beta(rt)),
    );
    assert!(rt; twice == Fault::NameTaken.number());
    assert!(rt;
        told(
            rt,
            residents,
            &stop,
            host,
            replies,
            HostLine::Close(beta(rt).name)
        ) == CLOSED
    );
    assert_greeted(rt, residents, host, None);
    let late = told(
        rt,
        residents,
        &stop,
        host,
        replies,
        HostLine::Close(beta(rt).name),
    );
    assert!(rt; late == Fault::UnknownTenant.number());
}

// Asserts that a line without a form does nothing.
fn assert_unread<R: Wait + Clock + Abort, S: Site>(
    rt: &R,
    residents: &Residents<S>,
    stop: &Stop,
    host: &mut TenantHost<'_, R>,
    replies: &mut Replies,
    line: HostLine,
)
    requires site { host.old.desk.cluster.now ≡ S.cluster }
    requires nodes { 0 < length (openings host.old.desk.cluster.now) }
    ensures cluster { host.new.desk.cluster.now ≡ host.old.desk.cluster.now }
{
    assert!(rt; told(rt, residents, stop, host, replies, line) == Fault::Syntax.number());
    assert_greeted(rt, residents, host, None);
}

// Asserts that lines without a form do nothing, and that the last one asks for the end.
fn assert_others<R: Wait + Clock + Abort, S: Site>(
    rt: &R,
    residents: &Residents<S>,
    host: &mut TenantHost<'_, R>,
    replies: &mut Replies,
)
    requires site { host.old.desk.cluster.now ≡ S.cluster }
    requires nodes { 0 < length (openings host.old.desk.cluster.now) }
{
    let stop = Stop::never();
    let mut late = beta(rt);
    late.first_clock = Version::LAST_CLOCK + 1;
    assert_unread(rt, residents, &stop, host, replies, HostLine::Unknown);
    assert_unread(rt, residents, &stop, host, replies, HostLine::Admit(late));
    assert!(rt; !stop.is_asked());
    assert!(rt; told(rt, residents, &stop, host, replies, HostLine::End) == 0);
    assert!(rt; stop.is_asked());
}

// Follows lines at these nodes.
fn follow_at<R: Wait + Clock + Abort, S: Site>(
    rt: &R,
    alloc: Global,
    config: &Config,
    cluster: &Cluster<HostedNode>,
    seat: &mut ServiceSeat<HostedNode>,
)
    requires site { (config.now ≡ S.config) × (cluster.now ≡ S.cluster) }
    requires hosted { AreHosted cluster.now }
    requires seat { IsSeatOf cluster.now seat.old }
    requires nodes { 0 < length (openings cluster.now) }
{
    let residents = Residents::<S>::of(alloc, config, cluster, seat).expect(rt, "memory");
    let mut roster = Roster::of(alloc, config).expect(rt, "memory");
    let mut host = TenantHost {
        desk: HostedDesk::new(rt, cluster, seat),
        roster: &mut roster,
    };
    let mut replies = Replies::new(alloc).expect(rt, "memory");
    assert_life(rt, &residents, &mut host, &mut replies, 1);
    assert_life(rt, &residents, &mut host, &mut replies, 2);
    assert_others(rt, &residents, &mut host, &mut replies);
}

// Opens two nodes, and follows lines there.
fn follow_lines<R: Wait + Clock + Abort>(rt: &R, alloc: Global, config: &Config)
    requires sizes { IsTrue (are_sizes config.now) }
    requires clocks { IsTrue (are_clocks config.now) }
{
    let (cluster, mut seat) = Cluster::host(alloc, config).expect(rt, "memory");
    follow_at::<R, Brand>(rt, alloc, config, &cluster, &mut seat);
}

#[test]
fn lines_of_the_host_are_followed(rt: HostRuntime) {
    let config = config(&rt, rt.alloc(), 2);
    assert!(&rt; has_clocks(&config));
    follow_lines(&rt, rt.alloc(), &config);
}

#[test]
fn lines_are_taken_in_order_until_the_end(rt: HostRuntime) {
    let lines = HostLines::new(rt.alloc()).expect(&rt, "memory");
    let mut taken = lines.room(rt.alloc()).expect(&rt, "memory").lines;
    assert!(&rt; lines.offer(HostLine::Unknown).is_ok());
    assert!(&rt; lines.offer(HostLine::End).is_ok());
    assert!(&rt; lines.take(&rt, &mut taken));
    assert!(&rt; matches!(taken.as_slice(), [HostLine::Unknown, HostLine::End]));
    taken.clear();
    assert!(&rt; lines.offer(HostLine::End).is_ok());
    lines.end(&rt);
    assert!(&rt; lines.offer(HostLine::Unknown).is_ok());
    assert!(&rt; !lines.take(&rt, &mut taken));
    assert!(&rt; matches!(taken.as_slice(), [HostLine::End]));
}

#[test]
fn a_line_without_room_comes_back(rt: HostRuntime) {
    let lines = HostLines::new(rt.alloc()).expect(&rt, "memory");
    for _ in 0..64 {
        assert!(&rt; lines.offer(HostLine::Unknown).is_ok());
    }
    assert!(&rt; matches!(lines.offer(HostLine::End), Err(HostLine::End)));
}

// Counts reports, and the replies in them.
#[derive(Drop)]
struct Counted {
    reports: Cell<usize>,
    replies: Cell<usize>,
}

impl HostReports for Counted {
    fn told(&self, replies: &[HostReply]) {
        self.reports.set(self.reports.get().saturating_add(1));
        self.replies
            .set(self.replies.get().saturating_add(replies.len()));
    }
}

#[test]
fn replies_are_reported_together(rt: HostRuntime) {
    let counted = Counted {
        reports: Cell::new(0),
        replies: Cell::new(0),
    };
    let mut replies = Replies::new(rt.alloc()).expect(&rt, "memory");
    replies.report(&counted);
    for _ in 0..64 {
        replies.keep(&counted, HostReply::Denied(Fault::Syntax));
    }
    assert!(&rt; counted.reports.get() == 0);
    replies.keep(&counted, HostReply::Denied(Fault::Syntax));
    assert!(&rt; counted.reports.get() == 1 && counted.replies.get() == 64);
    replies.report(&counted);
    assert!(&rt; counted.reports.get() == 2 && counted.replies.get() == 65);
}
