ghost use Rattle.std.specs.Prelude.{◌≡◌, ◌<◌, [], ◌∷◌, ◌++◌, length, position, slice_get, Some, OnOk, OnErr, IsTrue};
ghost use Rattle.std.specs.List.{AllByRecursion};
ghost use Rattle.cops_types.specs.HeadLines.{is_distinct};
ghost use Rattle.cops_types.specs.Key.{IsName, key_eq};
ghost use Rattle.cops_types.specs.Slots.{AreDistinct, AreNamed, slot_of_name, slot_of_token};

use crate::configs::Tenant;
use crate::names::Name;
use indexmap::IndexSet;
use std::alloc::{AllocError, Global};
use std::marker::Model;
use uuid::Uuid;

/// The tenants by slot. Contracts see the list.
#[derive(Debug, Drop)]
pub struct Tenants {
    tenants: Vec<Tenant>,
    names: IndexSet<Name>,
    tokens: IndexSet<[u8; 16]>,
}

impl Model for Tenants {
    ghost use Rattle.std.specs.Prelude.{List};
    ghost use Rattle.cops_types.specs.declared.configs.Tenant.{Tenant};
    ghost use Rattle.cops_types.specs.Key.{IsName, key_eq};
    ghost use Rattle.cops_types.specs.Slots.{AreIndexed};

    ghost Value = { List Tenant };

    ghost view = { λ t. t.tenants.items };

    ghost invariant = { λ t. AreIndexed t.tenants.items t.names.keys t.tokens.keys };
}

/// Returns the name, which is one.
fn name_of(tenant: &Tenant) -> Name
    ensures value { result ≡ tenant.now.name }
    ensures name { IsName tenant.now.name }
{
    let name = tenant.name;
    let _bytes = name.bytes();
    name
}

/// Returns the index of these bytes among names.
fn place_of_name(names: &IndexSet<Name>, name: &[u8]) -> Option<usize>
    requires { AllByRecursion IsName names.now.keys }
    ensures { result ≡ position (key_eq name.now) names.now.keys }
{
    match Name::new(name) {
        Ok(name) => names.get_index_of(&name),
        Err(_) => None,
    }
}

impl Tenants {
    /// Returns an empty list: no tenant.
    pub fn new(alloc: Global) -> Self
        ensures { result ≡ [] }
    {
        Tenants {
            tenants: Vec::new(alloc),
            names: IndexSet::new(alloc),
            tokens: IndexSet::new(alloc),
        }
    }

    /// Returns the number of tenants.
    pub fn len(&self) -> usize
        ensures { result ≡ length self.now }
    {
        self.tenants.len()
    }

    /// Returns all tenants, by slot.
    pub fn as_slice(&self) -> &[Tenant]
        ensures value { result.now ≡ self.now }
        ensures named { AreNamed self.now }
        ensures distinct { AreDistinct self.now }
    {
        self.tenants.as_slice()
    }

    /// Returns the tenant of a slot.
    pub fn tenant(&self, slot: u64) -> &Tenant
        requires { slot < length self.now }
        ensures { slice_get self.now slot ≡ Some result.now }
    {
        &self.tenants[slot as usize]
    }

    /// Returns the slot of the tenant with this name.
    pub fn slot_of_name(&self, name: &[u8]) -> Option<u64>
        ensures { result ≡ slot_of_name self.now name.now }
    {
        match place_of_name(&self.names, name) {
            Some(slot) => Some(slot as u64),
            None => None,
        }
    }

    /// Returns the slot of the tenant with this token.
    pub fn slot_of_token(&self, token: &Uuid) -> Option<u64>
        ensures { result ≡ slot_of_token self.now token.now }
    {
        match self.tokens.get_index_of(token.as_bytes()) {
            Some(slot) => Some(slot as u64),
            None => None,
        }
    }

    /// Returns `true` if no tenant has this one's name or token.
    pub fn is_distinct(&self, tenant: &Tenant) -> bool
        ensures { result ≡ is_distinct self.now tenant.now }
    {
        !self.names.contains(&tenant.name) && !self.tokens.contains(tenant.token.as_bytes())
    }

    /// Gives the next slot to a tenant whose name and token are new. Fails with `AllocError` if
    /// memory runs out.
    pub fn push(&mut self, tenant: Tenant) -> Result<(), AllocError>
        requires { IsTrue (is_distinct self.old tenant) }
        ensures ok { OnOk result (self.new ≡ self.old ++ tenant ∷ []) }
        ensures err { OnErr result (self.new ≡ self.old) }
    {
        self.tenants.reserve(1)?;
        self.names.reserve(1)?;
        self.tokens.reserve(1)?;
        let name = name_of(&tenant);
        let token = tenant.token.into_bytes();
        match (
            self.tenants.push(tenant),
            self.names.insert(name),
            self.tokens.insert(token),
        ) {
            (Ok(()), Ok(_), Ok(_)) => Ok(()),
            _ => unreachable!(),
        }
    }
}
