//! A cluster of one node and one tenant, and the tenant's session there.
ghost use Rattle.std.specs.Prelude.{◌≡◌, length, IsTrue};
ghost use Rattle.cops_types.specs.HeadLines.{are_sizes};
ghost use Rattle.cops_node.specs.Parts.{are_clocks};
ghost use Rattle.cops_session.specs.Kept.{IsOfSizes};

use cops_session::Session;
use cops_types::{Config, Name, Quota, Tenant, Tenants};
use std::alloc::Global;
use std::process::Abort;
use uuid::Uuid;

/// One tenant, whose token ends in 1.
fn acme(rt: &impl Abort) -> Tenant
    ensures { result.first_clock ≡ 0 }
{
    let mut token = [0; 16];
    token[15] = 1;
    Tenant {
        name: Name::new(b"acme").expect(rt, "a name"),
        token: Uuid::from_bytes(token),
        first_clock: 0,
        quota: Quota {
            versions: 100,
            bytes: 10000,
            outbox: 10,
            contexts: 4,
            deps: 20,
            actors: 8,
            audit: 1000,
        },
    }
}

/// One data centre of one shard, and one tenant.
pub(crate) fn one_node(rt: &impl Abort, alloc: Global) -> Config
    ensures sizes { IsTrue (are_sizes result) }
    ensures clocks { IsTrue (are_clocks result) }
    ensures tenant { length result.tenants ≡ 1 }
    ensures data_centre { result.data_centres ≡ 1 }
    ensures shard { result.shards ≡ 1 }
{
    let mut tenants = Tenants::new(alloc);
    let tenant = acme(rt);
    assert!(rt; tenants.is_distinct(&tenant));
    tenants.push(tenant).expect(rt, "memory");
    Config {
        data_centres: 1,
        shards: 1,
        trans_time: 5000,
        restarts: 1,
        tenants,
    }
}

/// A session of the tenant, whose numbers begin with `first`.
pub(crate) fn session(alloc: Global, config: &Config, first: u64) -> Session
    requires sizes { IsTrue (are_sizes config.now) }
    requires tenant { length config.now.tenants ≡ 1 }
    ensures { IsOfSizes config.now.data_centres config.now.shards result.setting }
{
    Session::starting_at(alloc, config, 0, 0, first)
}
