//! Checks that a configuration keeps to the limits of a head, so that worlds and nodes can be made of it.
ghost use Rattle.std.specs.Prelude.{◌≡◌, ◌&&◌, IsTrue, nat_le};
ghost use Rattle.std.specs.List.{list_all};
ghost use Rattle.cops_types.specs.HeadLines.{are_sizes, is_between, is_quota, is_tenant, most_shards};
ghost use Rattle.cops_types.specs.Key.{IsName};
ghost use Rattle.cops_types.specs.Words.{is_u64};
ghost use Rattle.cops_node.specs.Parts.{are_clocks};
ghost use Rattle.cops_script.specs.GoodHeads.{is_good};

use cops_types::{Config, Name, Quota, Tenant, Version};

/// The greatest limit of a quota, except that of `deps`.
const GREATEST_QUOTA: u64 = 4_294_967_295;

/// Returns whether a tenant may have the quota.
fn is_quota(quota: &Quota) -> bool
    ensures { result ≡ is_quota quota.now }
{
    quota.versions <= GREATEST_QUOTA
        && quota.bytes <= GREATEST_QUOTA
        && quota.outbox <= GREATEST_QUOTA
        && quota.contexts <= GREATEST_QUOTA
        && quota.deps <= 1024
        && quota.actors <= GREATEST_QUOTA
        && quota.audit <= GREATEST_QUOTA
}

/// Every `Name` is a name of a head.
fn see_name(name: Name)
    ensures { IsName name }
{
    let _bytes = name.bytes();
}

/// Returns whether a head may give the tenant: its first clock and its quota are within the limits. A
/// world admits no other.
pub fn is_tenant(tenant: &Tenant) -> bool
    ensures { result ≡ is_tenant tenant.now }
{
    see_name(tenant.name);
    tenant.first_clock <= Version::LAST_CLOCK && is_quota(&tenant.quota)
}

/// Returns whether all these tenants are within the limits.
fn are_tenants(tenants: &[Tenant]) -> bool
    ensures { result ≡ list_all is_tenant tenants.now }
{
    tenants.iter().all(|tenant| is_tenant(tenant))
}

/// Returns whether a cluster may have these sizes and this many restarts.
fn are_sizes(data_centres: u64, shards: u64, trans_time: u64, restarts: u64) -> bool
    ensures { result ≡ (is_between 1 8 data_centres && is_between 1 most_shards shards
        && is_u64 trans_time && nat_le restarts 15) }
{
    1 <= data_centres
        && data_centres <= 8
        && 1 <= shards
        && shards <= Config::MOST_SHARDS
        && restarts <= 15
}

/// Returns whether the sizes, and each tenant, are within the limits.
fn is_within(config: &Config) -> bool
    ensures { result ≡ is_good config.now }
{
    are_sizes(
        config.data_centres,
        config.shards,
        config.trans_time,
        config.restarts,
    ) && are_tenants(config.tenants.as_slice())
}

/// Returns whether a head may give the configuration: its sizes, and each of its tenants, are within the
/// limits. Worlds and runs require this. Nodes require the two parts that the last clauses name.
pub fn is_good(config: &Config) -> bool
    ensures good { result ≡ is_good config.now }
    ensures sizes { IsTrue result → IsTrue (are_sizes config.now) }
    ensures clocks { IsTrue result → IsTrue (are_clocks config.now) }
{
    is_within(config)
}
