//! Admissions and closes at all nodes of a running cluster.
ghost use Rattle.std.specs.Prelude.{◌≡◌, ◌<◌, ◌≤◌, ℕ, length, IfErr, OnOk, Result};
ghost use Rattle.std.specs.declared.alloc.AllocError.{AllocError as NoMemory};
ghost use Rattle.cops_types.specs.Version.{last_clock};
ghost use Rattle.cops_node.specs.declared.Home.{Home};
ghost use Rattle.cops_node.specs.declared.hosted.SlotCall.TheVariants.{Admit};
ghost use Rattle.cops_node.specs.declared.hosted.SlotReply.{SlotReply as Told};
ghost use Rattle.cops_node.specs.declared.hosted.SlotReply.TheVariants.{Admitted};
ghost use Rattle.cops_node.specs.Hosting.{FitsSlot};
ghost use Rattle.cops_service.specs.Gates.{openings};
ghost use Rattle.cops_service.specs.HostedDesks.{IsAdmittedAtAll, IsClosedAtAll, IsClosedAtFirst, IsHostCall, IsRefusal, IsTakenBack, told_at_slot};

use crate::hosted_desk::{HostedDesk, reply_of};
use cops_node::{SlotCall, SlotReply};
use cops_types::{Fault, RequestError, Tenant};
use std::alloc::AllocError;
use std::sync::Wait;

impl<R: Wait> HostedDesk<'_, R> {
    // Makes a call of the host at the node with this number.
    fn tell(&mut self, number: usize, slot: u64, call: SlotCall) -> Result<SlotReply, AllocError>
        requires node { number < length (openings self.old.cluster.now) }
        requires fits { (home : Home) → FitsSlot home slot call }
        ensures cluster { self.new.cluster.now ≡ self.old.cluster.now }
        ensures seat { self.new.seat.ghost_name ≡ self.old.seat.ghost_name }
        ensures told { IsHostCall self.old.cluster.now slot call number
            (told_at_slot result) self.old.seat.now self.new.seat.now }
    {
        reply_of(
            self.seat
                .turn_at(self.rt, self.cluster, number, slot, 0, call),
        )
    }

    // Gives the slot to the tenant at the node with this number.
    fn admit_at(
        &mut self,
        number: usize,
        slot: u64,
        life: u64,
        tenant: &Tenant,
    ) -> Result<(), RequestError>
        requires node { number < length (openings self.old.cluster.now) }
        requires clock { tenant.now.first_clock ≤ last_clock }
        ensures cluster { self.new.cluster.now ≡ self.old.cluster.now }
        ensures seat { self.new.seat.ghost_name ≡ self.old.seat.ghost_name }
        ensures ok { OnOk result (IsHostCall self.old.cluster.now slot
            (Admit life tenant.now) number Admitted self.old.seat.now self.new.seat.now) }
        ensures refused { IfErr result (λ error. (answer : Result Told NoMemory)
            × IsRefusal answer error × IsHostCall self.old.cluster.now slot (Admit life tenant.now)
            number (told_at_slot answer) self.old.seat.now self.new.seat.now) }
    {
        let tenant = *tenant;
        match self.tell(number, slot, SlotCall::Admit { life, tenant }) {
            Ok(SlotReply::Admitted) => Ok(()),
            Ok(SlotReply::Refused(fault)) => Err(RequestError::Refused(fault)),
            Ok(SlotReply::Own(_) | SlotReply::Closed) => Err(RequestError::Refused(Fault::Torn)),
            Err(error) => Err(RequestError::from(error)),
        }
    }

    // Closes the slot at the first `count` nodes.
    fn close_at_first(&mut self, count: usize, slot: u64)
        requires { count ≤ length (openings self.old.cluster.now) }
        ensures cluster { self.new.cluster.now ≡ self.old.cluster.now }
        ensures seat { self.new.seat.ghost_name ≡ self.old.seat.ghost_name }
        ensures closed { IsClosedAtFirst self.old.cluster.now slot count self.old.seat.now
            self.new.seat.now }
    {
        for number in 0..count {
            let _told = self.tell(number, slot, SlotCall::Close);
        }
    }

    /// Gives a slot to a tenant, in a life of this number: at all nodes, or at none. If a node refuses, the slot is closed
    /// again at the nodes that admitted the tenant. Then the error is that node's: out of memory, `NoSlot` if the slot isn't
    /// free there, or `GateSpent`. Nodes serve other calls between these turns.
    pub fn admit_at_all(
        &mut self,
        slot: u64,
        life: u64,
        tenant: &Tenant,
    ) -> Result<(), RequestError>
        requires clock { tenant.now.first_clock ≤ last_clock }
        ensures cluster { self.new.cluster.now ≡ self.old.cluster.now }
        ensures seat { self.new.seat.ghost_name ≡ self.old.seat.ghost_name }
        ensures ok { OnOk result (IsAdmittedAtAll self.old.cluster.now slot life tenant.now
            self.old.seat.now self.new.seat.now) }
        ensures refused { IfErr result (λ error. IsTakenBack self.old.cluster.now slot life
            tenant.now error self.old.seat.now self.new.seat.now) }
    {
        for number in 0..self.cluster.count() {
            if let Err(error) = self.admit_at(number, slot, life, tenant) {
                self.close_at_first(number, slot);
                return Err(error);
            }
        }
        Ok(())
    }

    /// Closes a slot at all nodes, one after another. Allocates nothing. Each turn costs what the tenant has at that node.
    pub fn close_at_all(&mut self, slot: u64)
        ensures cluster { self.new.cluster.now ≡ self.old.cluster.now }
        ensures seat { self.new.seat.ghost_name ≡ self.old.seat.ghost_name }
        ensures closed { IsClosedAtAll self.old.cluster.now slot self.old.seat.now
            self.new.seat.now }
    {
        self.close_at_first(self.cluster.count(), slot);
    }
}
