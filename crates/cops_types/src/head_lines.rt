//! The lines of a head.
ghost use Rattle.std.specs.Prelude.{◌≡◌, ◌≤◌, ◌<◌, ◌^◌, [], ◌∷◌, ℕ, List, Option, Some, None, IfSome, IfNone, IfOk, OnErr, decimal, length, nat_le, nat_lt, ◌&&◌, IsTrue};
ghost use Rattle.cops_types.specs.declared.configs.Config.{Config};
ghost use Rattle.cops_types.specs.declared.configs.Tenant.{Tenant};
ghost use Rattle.cops_types.specs.declared.quotas.Quota.{Quota};
ghost use Rattle.cops_types.specs.Head.{JoinsOrStays, may_join};
ghost use Rattle.cops_types.specs.HeadLines.{IsClusterLine, IsTenantLine, cluster_in, is_between, is_quota, most_shards, tenant_in, IsTenantLineTo, tenant_in_to};
ghost use Rattle.cops_types.specs.HeadWords.{AreTenantWords, quota_words};
ghost use Rattle.cops_types.specs.Words.{is_u64};

use crate::configs::{Config, Tenant};
use crate::names::Name;
use crate::quotas::Quota;
use crate::tenants::Tenants;
use crate::words::{Words, parse_number};
use std::alloc::{AllocError, Global};
use uuid::Uuid;

/// The most tenants of a head.
const MOST_TENANTS: usize = 64;

/// The greatest limit of a quota, except for that of `deps`.
const GREATEST_QUOTA: u64 = 4294967295;

/// Removes and returns the next word, if it writes a number.
fn next_number(words: &mut Words) -> Option<u64>
    ensures some { IfSome result (λ n. words.old ≡ decimal n ∷ words.new) }
    ensures small { IfSome result (λ n. IsTrue (is_u64 n)) }
    ensures none { IfNone result
        ((n : ℕ) (rest : List (List ℕ)) → IsTrue (is_u64 n) → words.old ≡ decimal n ∷ rest → ⊥) }
{
    parse_number(words.next_word()?)
}

/// Returns `true` if a cluster may have these sizes and this many restarts.
fn are_sizes(data_centres: u64, shards: u64, restarts: u64) -> bool
    ensures { result
        ≡ (is_between 1 8 data_centres && is_between 1 most_shards shards && nat_le restarts 15) }
{
    1 <= data_centres
        && data_centres <= 8
        && 1 <= shards
        && shards <= Config::MOST_SHARDS
        && restarts <= 15
}

/// Returns the cluster that a line gives, with no tenant yet.
fn cluster_of(alloc: Global, line: &[u8]) -> Option<Config>
    ensures some { IfSome result (IsClusterLine line.now) }
    ensures none { IfNone result ((config : Config) → IsClusterLine line.now config → ⊥) }
{
    let mut words = Words::of(line);
    if words.next_word()? != b"cluster".as_slice() {
        return None;
    }
    let data_centres = next_number(&mut words)?;
    let shards = next_number(&mut words)?;
    let trans_time = next_number(&mut words)?;
    let restarts = next_number(&mut words)?;
    if !words.is_empty() {
        return None;
    }
    if !are_sizes(data_centres, shards, restarts) {
        return None;
    }
    Some(Config {
        data_centres,
        shards,
        trans_time,
        restarts,
        tenants: Tenants::new(alloc),
    })
}

/// Returns the cluster that a line gives, with no tenant yet.
pub(crate) fn read_cluster(alloc: Global, line: &[u8]) -> Option<Config>
    ensures { result ≡ cluster_in line.now }
{
    cluster_of(alloc, line)
}

/// Returns `true` if a tenant may have the quota.
fn is_quota(quota: &Quota) -> bool
    ensures { result ≡ is_quota quota.now }
{
    quota.versions <= GREATEST_QUOTA
        && quota.bytes <= GREATEST_QUOTA
        && quota.outbox <= GREATEST_QUOTA
        && quota.contexts <= GREATEST_QUOTA
        && quota.deps <= 1024
        && quota.actors <= GREATEST_QUOTA
        && quota.audit <= GREATEST_QUOTA
}

/// Returns the quota that exactly these words give.
fn last_quota(words: &mut Words) -> Option<Quota>
    ensures some { IfSome result
        (λ quota. (words.old ≡ quota_words quota) × IsTrue (is_quota quota)) }
    ensures none { IfNone result
        ((quota : Quota) → IsTrue (is_quota quota) → words.old ≡ quota_words quota → ⊥) }
{
    let quota = Quota {
        versions: next_number(words)?,
        bytes: next_number(words)?,
        outbox: next_number(words)?,
        contexts: next_number(words)?,
        deps: next_number(words)?,
        actors: next_number(words)?,
        audit: next_number(words)?,
    };
    if !words.is_empty() {
        return None;
    }
    if !is_quota(&quota) {
        return None;
    }
    Some(quota)
}

/// Returns the tenant that exactly these words give, if its first clock is at most `last_clock`.
pub fn last_tenant(words: &mut Words, last_clock: u64) -> Option<Tenant>
    ensures some { IfSome result (AreTenantWords last_clock words.old) }
    ensures none { IfNone result
        ((tenant : Tenant) → AreTenantWords last_clock words.old tenant → ⊥) }
{
    let Ok(name) = Name::new(words.next_word()?) else {
        return None;
    };
    let Ok(token) = Uuid::try_parse_ascii(words.next_word()?) else {
        return None;
    };
    let first_clock = next_number(words)?;
    if first_clock > last_clock {
        return None;
    }
    let quota = last_quota(words)?;
    Some(Tenant {
        name,
        token,
        first_clock,
        quota,
    })
}

/// Returns the tenant that a line gives, with a first clock up to this one.
fn tenant_of(line: &[u8], last_clock: u64) -> Option<Tenant>
    ensures some { IfSome result (IsTenantLineTo last_clock line.now) }
    ensures none { IfNone result
        ((tenant : Tenant) → IsTenantLineTo last_clock line.now tenant → ⊥) }
{
    let mut words = Words::of(line);
    if words.next_word()? != b"tenant".as_slice() {
        return None;
    }
    last_tenant(&mut words, last_clock)
}

/// Returns the tenant that a line gives, with a first clock up to this one.
fn read_tenant(line: &[u8], last_clock: u64) -> Option<Tenant>
    ensures { result ≡ tenant_in_to last_clock line.now }
{
    tenant_of(line, last_clock)
}

/// Returns `true` if one more tenant may join.
fn may_join(config: &Config, tenant: &Tenant) -> bool
    ensures { result ≡ may_join config.now tenant.now }
{
    config.tenants.len() < MOST_TENANTS && config.tenants.is_distinct(tenant)
}

/// Gives the next slot to the tenant of a line, if it may join and its first clock is at most
/// `last_clock`.
pub(crate) fn join(config: &mut Config, line: &[u8], last_clock: u64) -> Result<bool, AllocError>
    ensures ok { IfOk result (λ has_joined.
        JoinsOrStays config.old (tenant_in_to last_clock line.now) config.new has_joined) }
    ensures err { OnErr result (config.new ≡ config.old) }
{
    let Some(tenant) = read_tenant(line, last_clock) else {
        return Ok(false);
    };
    if !may_join(config, &tenant) {
        return Ok(false);
    }
    config.tenants.push(tenant)?;
    Ok(true)
}
