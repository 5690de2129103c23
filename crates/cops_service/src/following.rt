//! Follows the host's lines at a running cluster.
ghost use Rattle.std.specs.Prelude.{◌≡◌, ◌<◌, ◌≤◌, [], length};
ghost use Rattle.cops_types.specs.OpenSlots.{open_slot_of_name};
ghost use Rattle.cops_types.specs.Version.{last_clock};
ghost use Rattle.cops_service.specs.Calling.{DoneForEach};
ghost use Rattle.cops_service.specs.Gates.{openings};
ghost use Rattle.cops_service.specs.HostedCrews.{FollowsLine, IsLineTold, IsTenantLineTold};
ghost use Rattle.cops_service.specs.Rosters.{IsAdmissionTold, IsCloseTold};

use crate::host_lines::HostLine;
use crate::replies::Replies;
use crate::reports::HostReports;
use crate::residents::{Resident, Residents, Site};
use crate::stops::Stop;
use crate::tenant_host::TenantHost;
use cops_model::HostReply;
use cops_types::{Fault, Name, Tenant, Version};
use std::sync::Wait;
use std::time::Clock;

// Admits a tenant. Clients are greeted as the tenant once all nodes have it.
#[tactic(auto, using(crate::proofs::Admitted::shown_everywhere))]
fn admit<R: Wait, S: Site>(
    rt: &R,
    residents: &Residents<S>,
    host: &mut TenantHost<'_, R>,
    tenant: Tenant,
) -> HostReply
    requires clock { tenant.first_clock ≤ last_clock }
    requires site { host.old.desk.cluster.now ≡ S.cluster }
    requires nodes { 0 < length (openings host.old.desk.cluster.now) }
    ensures cluster { host.new.desk.cluster.now ≡ host.old.desk.cluster.now }
    ensures seat { host.new.desk.seat.ghost_name ≡ host.old.desk.seat.ghost_name }
    ensures roster { host.new.roster.ghost_name ≡ host.old.roster.ghost_name }
    ensures told { IsAdmissionTold host.old.desk.cluster.now tenant host.old.roster.now
        host.old.desk.seat.now result host.new.roster.now host.new.desk.seat.now }
{
    let name = tenant.name;
    let entered = tenant;
    match host.admit(tenant) {
        Ok(life) => {
            let tenant = entered;
            let desk = &mut host.desk;
            residents.enter(rt, desk.cluster, desk.seat, Resident { life, tenant });
            HostReply::Admitted(name)
        }
        Err(error) => HostReply::Denied(error.told()),
    }
}

// Closes a tenant. Nobody is greeted as the tenant from then on.
fn close<R: Wait, S: Site>(
    rt: &R,
    residents: &Residents<S>,
    host: &mut TenantHost<'_, R>,
    name: Name,
) -> HostReply
    ensures cluster { host.new.desk.cluster.now ≡ host.old.desk.cluster.now }
    ensures seat { host.new.desk.seat.ghost_name ≡ host.old.desk.seat.ghost_name }
    ensures roster { host.new.roster.ghost_name ≡ host.old.roster.ghost_name }
    ensures told { IsCloseTold host.old.desk.cluster.now name
        (open_slot_of_name host.old.roster.now.tenants name) host.old.roster.now
        host.old.desk.seat.now result host.new.roster.now host.new.desk.seat.now }
{
    residents.leave(rt, name.bytes());
    match host.close(name.bytes()) {
        Ok(_slot) => HostReply::Closed(name),
        Err(fault) => HostReply::Denied(fault),
    }
}

// Admits the tenant of a line. A first clock that no clock has is bad syntax.
fn admit_line<R: Wait, S: Site>(
    rt: &R,
    residents: &Residents<S>,
    host: &mut TenantHost<'_, R>,
    tenant: Tenant,
) -> HostReply
    requires site { host.old.desk.cluster.now ≡ S.cluster }
    requires nodes { 0 < length (openings host.old.desk.cluster.now) }
    ensures cluster { host.new.desk.cluster.now ≡ host.old.desk.cluster.now }
    ensures seat { host.new.desk.seat.ghost_name ≡ host.old.desk.seat.ghost_name }
    ensures roster { host.new.roster.ghost_name ≡ host.old.roster.ghost_name }
    ensures told { IsTenantLineTold host.old.desk.cluster.now tenant
        (record { roster = host.old.roster.now; seat = host.old.desk.seat.now }) result
        (record { roster = host.new.roster.now; seat = host.new.desk.seat.now }) }
{
    if tenant.first_clock > Version::LAST_CLOCK {
        return HostReply::Denied(Fault::Syntax);
    }
    admit(rt, residents, host, tenant)
}

// Follows a line of the host. Returns the reply, or none if the line asks for the end.
fn reply_to<R: Wait + Clock, S: Site>(
    rt: &R,
    residents: &Residents<S>,
    stop: &Stop,
    host: &mut TenantHost<'_, R>,
    line: HostLine,
) -> Option<HostReply>
    requires site { host.old.desk.cluster.now ≡ S.cluster }
    requires nodes { 0 < length (openings host.old.desk.cluster.now) }
    ensures cluster { host.new.desk.cluster.now ≡ host.old.desk.cluster.now }
    ensures seat { host.new.desk.seat.ghost_name ≡ host.old.desk.seat.ghost_name }
    ensures roster { host.new.roster.ghost_name ≡ host.old.roster.ghost_name }
    ensures told { IsLineTold host.old.desk.cluster.now line
        (record { roster = host.old.roster.now; seat = host.old.desk.seat.now }) result
        (record { roster = host.new.roster.now; seat = host.new.desk.seat.now }) }
{
    match line {
        HostLine::Admit(tenant) => Some(admit_line(rt, residents, host, tenant)),
        HostLine::Close(name) => Some(close(rt, residents, host, name)),
        HostLine::Unknown => Some(HostReply::Denied(Fault::Syntax)),
        HostLine::End => {
            stop.ask(rt);
            None
        }
    }
}

/// Follows a line of the host, and adds the reply to those that are reported together.
pub(crate) fn follow<R: Wait + Clock, L: HostReports, S: Site>(
    rt: &R,
    residents: &Residents<S>,
    stop: &Stop,
    reports: &L,
    host: &mut TenantHost<'_, R>,
    replies: &mut Replies,
    line: HostLine,
)
    requires site { host.old.desk.cluster.now ≡ S.cluster }
    requires nodes { 0 < length (openings host.old.desk.cluster.now) }
    ensures cluster { host.new.desk.cluster.now ≡ host.old.desk.cluster.now }
    ensures seat { host.new.desk.seat.ghost_name ≡ host.old.desk.seat.ghost_name }
    ensures roster { host.new.roster.ghost_name ≡ host.old.roster.ghost_name }
    ensures follows { FollowsLine host.old.desk.cluster.now line
        (record { roster = host.old.roster.now; seat = host.old.desk.seat.now })
        (record { roster = host.new.roster.now; seat = host.new.desk.seat.now }) }
{
    if let Some(reply) = reply_to(rt, residents, stop, host, line) {
        replies.keep(reports, reply);
    }
}

/// Follows lines of the host, one after another, and then reports the replies.
pub(crate) fn follow_each<R: Wait + Clock, L: HostReports, S: Site>(
    rt: &R,
    residents: &Residents<S>,
    stop: &Stop,
    reports: &L,
    host: &mut TenantHost<'_, R>,
    replies: &mut Replies,
    lines: &[HostLine],
)
    requires site { host.old.desk.cluster.now ≡ S.cluster }
    requires nodes { 0 < length (openings host.old.desk.cluster.now) }
    ensures cluster { host.new.desk.cluster.now ≡ host.old.desk.cluster.now }
    ensures seat { host.new.desk.seat.ghost_name ≡ host.old.desk.seat.ghost_name }
    ensures roster { host.new.roster.ghost_name ≡ host.old.roster.ghost_name }
    ensures follows { DoneForEach (FollowsLine host.old.desk.cluster.now) lines.now
        (record { roster = host.old.roster.now; seat = host.old.desk.seat.now })
        (record { roster = host.new.roster.now; seat = host.new.desk.seat.now }) }
    ensures replies { replies.new.kept.items ≡ [] }
{
    for line in lines {
        follow(rt, residents, stop, reports, host, replies, *line);
    }
    replies.report(reports);
}
