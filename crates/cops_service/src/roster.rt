//! The tenants that are open at a running cluster, and the numbers of their lives.
ghost use Rattle.std.specs.Prelude.{◌≡◌, ◌+◌, None, IfErr, IfNone, IfOk, IfSome, IsOk, OnErr, OnOk, Some, Err, slice_set};
ghost use Rattle.cops_types.specs.declared.faults.Fault.TheVariants.{NoSlot, UnknownTenant};
ghost use Rattle.cops_types.specs.declared.request_errors.RequestError.TheVariants.{OutOfMemory};
ghost use Rattle.cops_types.specs.OpenSlots.{admission_refusal, open_slot_of_name};
ghost use Rattle.cops_model.specs.Setups.{next_slot};
ghost use Rattle.cops_service.specs.Rosters.{first_roster, last_life, life_of_token, roster_refusal};

use cops_types::{Config, Fault, OpenTenants, RequestError, Tenant};
use std::alloc::{AllocError, Global};
use std::marker::Model;
use uuid::Uuid;

/// The most slots of a node.
const MOST_SLOTS: usize = 64;

/// A life of a slot, from an admission of a tenant to its close.
#[derive(Clone, Copy, Debug, PartialEq, Eq)]
pub struct Life {
    pub slot: u64,
    pub number: u64,
}

/// The open tenants of a cluster, with their lives. No two lives that begin have the same number.
#[derive(Drop)]
pub struct Roster {
    tenants: OpenTenants,
    /// The number of each slot's latest life.
    lives: [u64; MOST_SLOTS],
    /// The number of the life that begins next.
    next: u64,
}

impl Model for Roster {
    ghost use Rattle.cops_service.specs.Rosters.{Roster as Kept};

    ghost Value = { Kept };

    ghost view = { λ r. record { tenants = r.tenants; lives = r.lives; next = r.next } };
}

impl Roster {
    /// Returns the tenants of a configuration, in their slots' lives 0. Fails with `AllocError` if memory runs out.
    pub fn of(alloc: Global, config: &Config) -> Result<Self, AllocError>
        ensures { IfOk result (λ roster. roster ≡ first_roster config.now) }
    {
        Ok(Roster {
            tenants: OpenTenants::of(alloc, &config.tenants)?,
            lives: [0; MOST_SLOTS],
            next: 1,
        })
    }

    /// Returns the open tenants.
    pub fn tenants(&self) -> &OpenTenants
        ensures { result.now ≡ self.now.tenants }
    {
        &self.tenants
    }

    /// Returns the life of the open tenant with this token.
    pub fn life_of_token(&self, token: &Uuid) -> Option<Life>
        ensures { result ≡ life_of_token self.now token.now }
    {
        let slot = self.tenants.slot_of_token(token)?;
        let number = match self.lives.get(slot as usize) {
            Some(life) => *life,
            None => 0,
        };
        Some(Life { slot, number })
    }

    // Returns the least free slot, or the number of all slots if none is free.
    fn next_slot(&self) -> u64
        ensures { result ≡ next_slot self.now.tenants }
    {
        match self.tenants.least_free() {
            Some(slot) => slot,
            None => MOST_SLOTS as u64,
        }
    }

    /// Returns the least free slot, which the tenant may have. Fails with `NameTaken` if an open tenant has that name or token,
    /// then with `NoSlot`.
    pub(crate) fn vacancy(&self, tenant: &Tenant) -> Result<u64, Fault>
        ensures slot { IfOk result (λ slot. slot ≡ next_slot self.now.tenants) }
        ensures may { OnOk result (roster_refusal self.now tenant.now ≡ None) }
        ensures refused { IfErr result (λ fault. roster_refusal self.now tenant.now ≡ Some fault) }
    {
        let slot = self.next_slot();
        if !self.tenants.is_new(tenant) {
            return Err(Fault::NameTaken);
        }
        if !self.tenants.is_free(slot) {
            return Err(Fault::NoSlot);
        }
        Ok(slot)
    }

    /// Returns the number of a new life. Fails with `NoSlot` if the numbers are used up.
    pub(crate) fn number_life(&mut self) -> Result<u64, Fault>
        ensures number { IfOk result (λ number. number ≡ self.old.next) }
        ensures next { OnOk result (self.new.next ≡ self.old.next + 1) }
        ensures tenants { self.new.tenants ≡ self.old.tenants }
        ensures lives { self.new.lives ≡ self.old.lives }
        ensures spent { IfErr result (λ fault. (fault ≡ NoSlot) × (self.old.next ≡ last_life)) }
        ensures err { OnErr result (self.new ≡ self.old) }
    {
        let number = self.next;
        if number == u64::MAX {
            return Err(Fault::NoSlot);
        }
        self.next = number + 1;
        Ok(number)
    }

    /// Enters a tenant that may have this slot, in a life of this number. Only memory can run out; then nothing changes.
    pub(crate) fn enter(&mut self, life: Life, tenant: Tenant) -> Result<(), RequestError>
        requires may { admission_refusal self.old.tenants life.slot tenant ≡ None }
        ensures tenants { OnOk result
            (self.new.tenants ≡ slice_set self.old.tenants life.slot (Some tenant)) }
        ensures lives { OnOk result
            (self.new.lives ≡ slice_set self.old.lives life.slot life.number) }
        ensures next { self.new.next ≡ self.old.next }
        ensures lack { IfErr result (λ error. error ≡ OutOfMemory) }
        ensures err { OnErr result (self.new ≡ self.old) }
    {
        self.tenants.admit_at(life.slot, tenant)?;
        self.lives[life.slot as usize] = life.number;
        Ok(())
    }

    /// Closes the open tenant with this name, and returns its slot. Fails with `UnknownTenant` if there is none.
    pub(crate) fn leave(&mut self, name: &[u8]) -> Result<u64, Fault>
        ensures slot { IfOk result (λ slot.
            open_slot_of_name self.old.tenants name.now ≡ Some slot) }
        ensures closed { IfOk result (λ slot.
            self.new.tenants ≡ slice_set self.old.tenants slot None) }
        ensures there { IfSome (open_slot_of_name self.old.tenants name.now) (λ _. IsOk result) }
        ensures absent { IfNone (open_slot_of_name self.old.tenants name.now)
            (result ≡ Err UnknownTenant) }
        ensures lives { self.new.lives ≡ self.old.lives }
        ensures next { self.new.next ≡ self.old.next }
        ensures err { OnErr result (self.new ≡ self.old) }
    {
        match self.tenants.slot_of_name(name) {
            Some(slot) => {
                self.tenants.close(slot)?;
                Ok(slot)
            }
            None => Err(Fault::UnknownTenant),
        }
    }
}
