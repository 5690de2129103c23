//! Seeds for tables whose keys strangers choose.
ghost use Rattle.std.specs.Prelude.{◌≡◌, map};
ghost use Rattle.cops_types.specs.Seeds.{digest, start_of};

use crate::configs::Tenant;
use std::hash::{BuildHasher, DefaultHasher, Hasher};
use std::marker::Model;

/// The state from which each hash of a table starts. Whoever does not know it cannot choose keys
/// that collide. Contracts see what the hasher has read.
#[derive(Clone, Copy)]
pub struct Seeds {
    start: DefaultHasher,
}

impl Model for Seeds {
    ghost use Rattle.std.specs.declared.hash.DefaultHasher.{DefaultHasher};

    ghost Value = { DefaultHasher };

    ghost view = { λ s. s.start };

    ghost inverse = { λ start. record { start = start } };
}

impl Seeds {
    /// Returns SipHash after reading these two numbers.
    pub fn new(one: u64, other: u64) -> Self
        ensures { result ≡ start_of one other }
    {
        let mut start = DefaultHasher::new();
        start.write_u64(one);
        start.write_u64(other);
        Seeds { start }
    }

    /// Returns seeds that depend on the tokens of all these tenants.
    pub fn of_tokens(tenants: &[Tenant]) -> Self
        ensures { let tokens = map (λ tenant. tenant.token) tenants.now in
            result ≡ start_of (digest 1 tokens) (digest 2 tokens) }
    {
        Seeds::new(digest(tenants, 1), digest(tenants, 2))
    }
}

/// Returns a number that depends on the tokens of all these tenants.
fn digest(tenants: &[Tenant], first: u64) -> u64
    ensures { result ≡ digest first (map (λ tenant. tenant.token) tenants.now) }
{
    let mut hasher = DefaultHasher::new();
    hasher.write_u64(first);
    for tenant in tenants {
        hasher.write(tenant.token.as_bytes());
    }
    hasher.finish()
}

impl BuildHasher for Seeds {
    type Hasher = DefaultHasher;

    ghost build_hasher = { λ seeds. seeds };

    fn build_hasher(&self) -> DefaultHasher {
        self.start
    }
}
