//! The tenants that are open now.
ghost use Rattle.std.specs.Prelude.{◌≡◌, ℕ, ◌≤◌, [], cond, count_by, is_none, is_some, length, take, List, position, replicate, slice_set, IfNone, IfOk, IfSome, IsOk, IsTrue, None, OnErr, OnOk, Some, Err};
ghost use Rattle.std.specs.Option.{option_copied};
ghost use Rattle.cops_types.specs.declared.faults.Fault.TheVariants.{UnknownTenant};
ghost use Rattle.cops_types.specs.declared.request_errors.RequestError.TheVariants.{Refused};
ghost use Rattle.cops_types.specs.HeadLines.{most_tenants};
ghost use Rattle.cops_types.specs.Key.{IsName, key_eq};
ghost use Rattle.indexmap.specs.IndexMap.{get};
ghost use Rattle.cops_types.specs.RequestErrors.{IfRefusal};
ghost use Rattle.cops_types.specs.OpenSlots.{AreFoundAt, admission_refusal, begun_with, is_free, is_new, open_at, open_slot_of_name, open_slot_of_token};
ghost use Rattle.cops_types.specs.Slots.{AreDistinct};

use crate::configs::Tenant;
use crate::faults::Fault;
use crate::name_hints::NameHints;
use crate::names::Name;
use crate::request_errors::RequestError;
use crate::tenants::Tenants;
use crate::words::are_same;
use indexmap::IndexMap;
use std::alloc::{AllocError, Global};
use std::marker::Model;
use uuid::Uuid;

/// The most tenants that may be open at once.
const MOST_OPEN: usize = 64;

/// The open tenants, by slot; tenants come and go. Contracts see a list with the tenant of each
/// slot, if it has one.
#[derive(Debug, Drop)]
pub struct OpenTenants {
    slots: Vec<Option<Tenant>>,
    /// The slot of each name.
    names: IndexMap<Name, usize>,
    /// The slot of each token.
    tokens: IndexMap<[u8; 16], usize>,
    /// The cached slots of names, which are tried first.
    hints: NameHints,
}

impl Model for OpenTenants {
    ghost use Rattle.std.specs.Prelude.{List, Option};
    ghost use Rattle.cops_types.specs.declared.configs.Tenant.{Tenant};

    ghost Value = { List (Option Tenant) };

    ghost use Rattle.cops_types.specs.OpenSlots.{AreOpen};

    ghost view = { λ t. t.slots.items };

    ghost invariant = { λ t. AreOpen t.slots.items t.names t.tokens };
}

/// Returns all slots, without a tenant.
fn free_slots(alloc: Global) -> Result<Vec<Option<Tenant>>, AllocError>
    ensures { IfOk result (λ slots. slots.items ≡ replicate most_tenants None) }
{
    let mut slots = Vec::with_capacity(alloc, MOST_OPEN)?;
    for _slot in 0..MOST_OPEN {
        slots.push(None)?;
    }
    Ok(slots)
}

/// Returns these tenants in the first slots, and free slots behind them.
fn slots_of(alloc: Global, tenants: &[Tenant]) -> Result<Vec<Option<Tenant>>, AllocError>
    ensures { IfOk result (λ slots. slots.items ≡ begun_with tenants.now) }
{
    let mut slots = Vec::new(alloc);
    for tenant in tenants {
        slots.push(Some(*tenant))?;
    }
    let free = MOST_OPEN.saturating_sub(tenants.len());
    for _slot in 0..free {
        slots.push(None)?;
    }
    Ok(slots)
}

/// Returns the place of the first slot without a tenant.
fn first_free(slots: &[Option<Tenant>]) -> Option<usize>
    ensures { result ≡ position is_none slots.now }
{
    slots.iter().position(|tenant| tenant.is_none())
}

/// Returns the name, which is one.
fn name_of(tenant: &Tenant) -> Name
    ensures value { result ≡ tenant.now.name }
    ensures name { IsName tenant.now.name }
{
    let name = tenant.name;
    let _bytes = name.bytes();
    name
}

/// Enters the slot of a tenant under its name and token. On error nothing is entered.
fn note(
    names: &mut IndexMap<Name, usize>,
    tokens: &mut IndexMap<[u8; 16], usize>,
    tenant: &Tenant,
    slot: usize,
) -> Result<(), AllocError>
    ensures name { IsName tenant.now.name }
    ensures names { OnOk result ((name : List ℕ) → get key_eq names.new name
        ≡ cond (key_eq tenant.now.name name) (Some slot) (get key_eq names.old name)) }
    ensures tokens { OnOk result ((token : List ℕ) → get key_eq tokens.new token
        ≡ cond (key_eq tenant.now.token token) (Some slot) (get key_eq tokens.old token)) }
    ensures same_names { OnErr result
        ((name : List ℕ) → get key_eq names.new name ≡ get key_eq names.old name) }
    ensures same_tokens { OnErr result
        ((token : List ℕ) → get key_eq tokens.new token ≡ get key_eq tokens.old token) }
{
    let name = name_of(tenant);
    names.reserve(1)?;
    tokens.reserve(1)?;
    let token = tenant.token.into_bytes();
    match (names.insert(name, slot), tokens.insert(token, slot)) {
        (Ok(_), Ok(_)) => Ok(()),
        _ => unreachable!(),
    }
}

/// Enters the slot of each of these tenants under its name and its token.
fn note_all(
    names: &mut IndexMap<Name, usize>,
    tokens: &mut IndexMap<[u8; 16], usize>,
    tenants: &[Tenant],
) -> Result<(), AllocError>
    requires distinct { AreDistinct tenants.now }
    requires names { names.old.entries ≡ [] }
    requires tokens { tokens.old.entries ≡ [] }
    ensures { OnOk result (AreFoundAt tenants.now names.new tokens.new) }
{
    for slot in 0..tenants.len() {
        note(names, tokens, &tenants[slot], slot)?;
    }
    Ok(())
}

/// Removes the slot of a tenant from the tables.
fn forget(
    names: &mut IndexMap<Name, usize>,
    tokens: &mut IndexMap<[u8; 16], usize>,
    tenant: &Tenant,
)
    ensures names { (name : List ℕ) → get key_eq names.new name
        ≡ cond (key_eq tenant.now.name name) None (get key_eq names.old name) }
    ensures tokens { (token : List ℕ) → get key_eq tokens.new token
        ≡ cond (key_eq tenant.now.token token) None (get key_eq tokens.old token) }
{
    let _slot = names.swap_remove(&tenant.name);
    let _same = tokens.swap_remove(tenant.token.as_bytes());
}

/// Returns the cache with the slot of each of these tenants.
fn hints_of(alloc: Global, tenants: &[Tenant]) -> Result<NameHints, AllocError> {
    let mut hints = NameHints::new(alloc)?;
    for slot in 0..tenants.len() {
        hints.note(tenants[slot].name.bytes(), slot as u64);
    }
    Ok(hints)
}

impl OpenTenants {
    /// Returns an empty table: no tenant is open. Fails with `AllocError` if memory runs out.
    pub fn new(alloc: Global) -> Result<Self, AllocError>
        ensures { IfOk result (λ tenants. tenants ≡ replicate most_tenants None) }
    {
        Ok(OpenTenants {
            slots: free_slots(alloc)?,
            names: IndexMap::new(alloc),
            tokens: IndexMap::new(alloc),
            hints: NameHints::new(alloc)?,
        })
    }

    /// Opens the tenants of a head, each in its slot. Fails with `AllocError` if memory runs out.
    pub fn of(alloc: Global, tenants: &Tenants) -> Result<Self, AllocError>
        ensures { IfOk result (λ begun. begun ≡ begun_with tenants.now) }
    {
        let tenants = tenants.as_slice();
        let hints = hints_of(alloc, tenants)?;
        let mut names = IndexMap::new(alloc);
        let mut tokens = IndexMap::new(alloc);
        note_all(&mut names, &mut tokens, tenants)?;
        Ok(OpenTenants {
            slots: slots_of(alloc, tenants)?,
            names,
            tokens,
            hints,
        })
    }

    /// Returns the tenant of each slot.
    pub fn as_slice(&self) -> &[Option<Tenant>]
        ensures value { result.now ≡ self.now }
        ensures enough { most_tenants ≤ length self.now }
    {
        self.slots.as_slice()
    }

    /// Returns the number of open tenants.
    pub fn len(&self) -> usize
        ensures { result ≡ count_by is_some self.now }
    {
        self.slots.iter().filter(|tenant| tenant.is_some()).count()
    }

    /// Returns the tenant of a slot, if it has one.
    pub fn tenant(&self, slot: u64) -> Option<&Tenant>
        ensures { option_copied result ≡ open_at slot self.now }
    {
        match self.slots.get(slot as usize) {
            Some(Some(tenant)) => Some(tenant),
            _ => None,
        }
    }

    /// Returns the tenant of a slot that has one.
    pub fn tenant_in(&self, slot: u64) -> &Tenant
        requires { IsTrue (is_some (open_at slot self.now)) }
        ensures { open_at slot self.now ≡ Some result.now }
    {
        match self.tenant(slot) {
            Some(tenant) => tenant,
            None => unreachable!(),
        }
    }

    /// Returns `true` if the slot has an open tenant with this name. At most one slot has.
    fn is_at(&self, place: u64, name: &[u8]) -> bool
        ensures { IsTrue result → open_slot_of_name self.now name.now ≡ Some place }
    {
        match self.slots.get(place as usize) {
            Some(Some(tenant)) => are_same(tenant.name.bytes(), name),
            _ => false,
        }
    }

    /// Returns the slot of the open tenant with this name.
    pub fn slot_of_name(&self, name: &[u8]) -> Option<u64>
        ensures { result ≡ open_slot_of_name self.now name.now }
    {
        let hint = self.hints.slot(name);
        if self.is_at(hint, name) {
            return Some(hint);
        }
        self.slot_by_hash(name)
    }

    /// Does the same by the name's hash.
    #[inline(never)]
    fn slot_by_hash(&self, name: &[u8]) -> Option<u64>
        ensures { result ≡ open_slot_of_name self.now name.now }
    {
        let names = &self.names;
        let Ok(name) = Name::new(name) else {
            return None;
        };
        match names.get(&name) {
            Some(slot) => Some(*slot as u64),
            None => None,
        }
    }

    /// Returns the slot of the open tenant with this token.
    pub fn slot_of_token(&self, token: &Uuid) -> Option<u64>
        ensures { result ≡ open_slot_of_token self.now token.now }
    {
        match self.tokens.get(token.as_bytes()) {
            Some(slot) => Some(*slot as u64),
            None => None,
        }
    }

    /// Returns the least slot that may be given to a tenant.
    pub fn least_free(&self) -> Option<u64>
        ensures { result ≡ position is_none (take most_tenants self.now) }
    {
        match first_free(&self.slots[..MOST_OPEN]) {
            Some(slot) => Some(slot as u64),
            None => None,
        }
    }

    /// Returns `true` if no open tenant has this one's name or token.
    pub fn is_new(&self, tenant: &Tenant) -> bool
        ensures { result ≡ is_new self.now tenant.now }
    {
        !self.names.contains_key(&tenant.name) && !self.tokens.contains_key(tenant.token.as_bytes())
    }

    /// Returns `true` if the slot may be given to a tenant.
    pub fn is_free(&self, slot: u64) -> bool
        ensures { result ≡ is_free slot self.now }
    {
        match self.tenant(slot) {
            Some(_) => false,
            None => slot < MOST_OPEN as u64,
        }
    }

    /// Returns why the tenant is not admitted to the slot, unless memory runs out.
    fn refusal(&self, slot: u64, tenant: &Tenant) -> Option<Fault>
        ensures { result ≡ admission_refusal self.now slot tenant.now }
    {
        if !self.is_new(tenant) {
            return Some(Fault::NameTaken);
        }
        if !self.is_free(slot) {
            return Some(Fault::NoSlot);
        }
        None
    }

    /// Gives the slot to the tenant. Is refused with `NameTaken` if an open tenant has that name or
    /// token, then with `NoSlot` if the slot has a tenant or is none of the 64. Memory can run out
    /// only otherwise.
    pub fn admit_at(&mut self, slot: u64, tenant: Tenant) -> Result<(), RequestError>
        ensures ok { OnOk result (self.new ≡ slice_set self.old slot (Some tenant)) }
        ensures refused { IfSome (admission_refusal self.old slot tenant)
            (λ fault. result ≡ Err (Refused fault)) }
        ensures faults { IfRefusal result
            (λ fault. admission_refusal self.old slot tenant ≡ Some fault) }
        ensures err { OnErr result (self.new ≡ self.old) }
    {
        if let Some(fault) = self.refusal(slot, &tenant) {
            return Err(RequestError::Refused(fault));
        }
        let place = slot as usize;
        note(&mut self.names, &mut self.tokens, &tenant, place)?;
        self.hints.note(tenant.name.bytes(), slot);
        self.slots[place] = Some(tenant);
        Ok(())
    }

    /// Closes the tenant of the slot. Allocates nothing. Fails with `UnknownTenant` if the slot has
    /// no tenant.
    pub fn close(&mut self, slot: u64) -> Result<(), Fault>
        ensures closed { OnOk result (self.new ≡ slice_set self.old slot None) }
        ensures there { IfSome (open_at slot self.old) (λ _. IsOk result) }
        ensures absent { IfNone (open_at slot self.old) (result ≡ Err UnknownTenant) }
        ensures err { OnErr result (self.new ≡ self.old) }
    {
        let tenant = match self.tenant(slot) {
            Some(tenant) => *tenant,
            None => return Err(Fault::UnknownTenant),
        };
        forget(&mut self.names, &mut self.tokens, &tenant);
        self.slots[slot as usize] = None;
        Ok(())
    }
}
