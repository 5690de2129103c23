//! The host of a running cluster, which admits and closes tenants while it serves.
ghost use Rattle.std.specs.Prelude.{◌≡◌, ◌≤◌, None, IfErr, IfNone, IfOk, IfSome, IsOk, OnErr, Some, Err, slice_set};
ghost use Rattle.cops_types.specs.declared.faults.Fault.TheVariants.{UnknownTenant};
ghost use Rattle.cops_types.specs.OpenSlots.{open_slot_of_name};
ghost use Rattle.cops_types.specs.Version.{last_clock};
ghost use Rattle.cops_service.specs.HostedDesks.{IsAdmittedAtAll, IsClosedAtAll};
ghost use Rattle.cops_service.specs.Rosters.{BeginsLife, IsNotAdmitted};

use crate::hosted_desk::HostedDesk;
use crate::roster::{Life, Roster};
use cops_types::{Fault, RequestError, Tenant};
use std::sync::Wait;

/// The host's desk at a running cluster, and the tenants that are open there.
#[derive(Drop)]
pub struct TenantHost<'a, R: Wait> {
    pub desk: HostedDesk<'a, R>,
    pub roster: &'a mut Roster,
}

impl<R: Wait> TenantHost<'_, R> {
    /// Admits a tenant to the least free slot, in a life with a new number: at all nodes, or at none. The roster has the tenant
    /// only once all nodes have it. Fails with `NameTaken` if an open tenant has that name or token. Then it fails with
    /// `NoSlot` if no slot is free.
    pub fn admit(&mut self, tenant: Tenant) -> Result<Life, RequestError>
        requires clock { tenant.first_clock ≤ last_clock }
        ensures cluster { self.new.desk.cluster.now ≡ self.old.desk.cluster.now }
        ensures seat { self.new.desk.seat.ghost_name ≡ self.old.desk.seat.ghost_name }
        ensures roster { self.new.roster.ghost_name ≡ self.old.roster.ghost_name }
        ensures begins { IfOk result
            (λ life. BeginsLife life tenant self.old.roster.now self.new.roster.now) }
        ensures at_all { IfOk result (λ life. IsAdmittedAtAll self.old.desk.cluster.now life.slot
            life.number tenant self.old.desk.seat.now self.new.desk.seat.now) }
        ensures refused { IfErr result (λ error. IsNotAdmitted self.old.desk.cluster.now
            self.old.roster.now tenant error self.old.desk.seat.now self.new.desk.seat.now
            self.new.roster.now.next) }
        ensures tenants { OnErr result (self.new.roster.now.tenants ≡ self.old.roster.now.tenants) }
        ensures lives { OnErr result (self.new.roster.now.lives ≡ self.old.roster.now.lives) }
    {
        let slot = self.roster.vacancy(&tenant)?;
        let number = self.roster.number_life()?;
        self.desk.admit_at_all(slot, number, &tenant)?;
        let life = Life { slot, number };
        if let Err(error) = self.roster.enter(life, tenant) {
            self.desk.close_at_all(slot);
            return Err(error);
        }
        Ok(life)
    }

    /// Closes the open tenant with this name at all nodes, and returns its slot. Allocates nothing. The roster loses it first, so
    /// that nobody is greeted as the tenant from then on. Fails with `UnknownTenant` if there is none.
    pub fn close(&mut self, name: &[u8]) -> Result<u64, Fault>
        ensures cluster { self.new.desk.cluster.now ≡ self.old.desk.cluster.now }
        ensures seat { self.new.desk.seat.ghost_name ≡ self.old.desk.seat.ghost_name }
        ensures roster { self.new.roster.ghost_name ≡ self.old.roster.ghost_name }
        ensures slot { IfOk result (λ slot.
            open_slot_of_name self.old.roster.now.tenants name.now ≡ Some slot) }
        ensures closed { IfOk result (λ slot.
            self.new.roster.now.tenants ≡ slice_set self.old.roster.now.tenants slot None) }
        ensures at_all { IfOk result (λ slot. IsClosedAtAll self.old.desk.cluster.now slot
            self.old.desk.seat.now self.new.desk.seat.now) }
        ensures there { IfSome (open_slot_of_name self.old.roster.now.tenants name.now)
            (λ _. IsOk result) }
        ensures absent { IfNone (open_slot_of_name self.old.roster.now.tenants name.now)
            (result ≡ Err UnknownTenant) }
        ensures lives { self.new.roster.now.lives ≡ self.old.roster.now.lives }
        ensures next { self.new.roster.now.next ≡ self.old.roster.now.next }
        ensures err { OnErr result (self.new.roster.now ≡ self.old.roster.now) }
        ensures seat_err { OnErr result (self.new.desk.seat.now ≡ self.old.desk.seat.now) }
    {
        let slot = self.roster.leave(name)?;
        self.desk.close_at_all(slot);
        Ok(slot)
    }
}
