//! The lines of an audit before its records, in their one form: tokens in lower case, with hyphens.
ghost use Rattle.std.specs.Prelude.{◌≡◌, ◌∷◌, ◌++◌, OnOk, decimal, flat_map};
ghost use Rattle.cops_types.specs.HeadLines.{begin_line, cluster_line};
ghost use Rattle.cops_replay.specs.AuditText.{ended, head_text, layout_line, tenant_text, with_tenants};

use cops_types::texts::push_number;
use cops_types::{Config, Tenant};
use std::alloc::AllocError;
use uuid::Uuid;

/// Appends each number after a space.
fn push_numbers(out: &mut Vec<u8>, numbers: &[u64]) -> Result<(), AllocError>
    ensures { OnOk result
        (out.new.items ≡ out.old.items ++ flat_map (λ number. 32 ∷ decimal number) numbers.now) }
{
    for number in numbers {
        out.push(b' ')?;
        push_number(out, *number)?;
    }
    Ok(())
}

/// Appends the line of today's layout, with its newline.
pub(crate) fn push_layout(out: &mut Vec<u8>) -> Result<(), AllocError>
    ensures { OnOk result (out.new.items ≡ out.old.items ++ ended layout_line) }
{
    out.extend_from_slice(b"layout 2\n")?;
    Ok(())
}

/// Appends the line of a cluster, with its newline.
pub(crate) fn push_cluster(out: &mut Vec<u8>, config: &Config) -> Result<(), AllocError>
    ensures { OnOk result (out.new.items ≡ out.old.items ++ ended (cluster_line config.now)) }
{
    let sizes = [
        config.data_centres,
        config.shards,
        config.trans_time,
        config.restarts,
    ];
    out.extend_from_slice(b"cluster")?;
    push_numbers(out, &sizes)?;
    out.push(b'\n')?;
    Ok(())
}

/// Appends the line that ends a head, with its newline.
pub(crate) fn push_begin(out: &mut Vec<u8>) -> Result<(), AllocError>
    ensures { OnOk result (out.new.items ≡ out.old.items ++ ended begin_line) }
{
    out.extend_from_slice(b"begin\n")?;
    Ok(())
}

/// Appends the line of a tenant, with its newline.
pub(crate) fn push_tenant(out: &mut Vec<u8>, tenant: &Tenant) -> Result<(), AllocError>
    ensures { OnOk result (out.new.items ≡ out.old.items ++ tenant_text tenant.now) }
{
    let quota = tenant.quota;
    let limits = [
        tenant.first_clock,
        quota.versions,
        quota.bytes,
        quota.outbox,
        quota.contexts,
        quota.deps,
        quota.actors,
        quota.audit,
    ];
    let name = tenant.name;
    let mut buffer = Uuid::encode_buffer();
    let token = tenant.token.hyphenated().encode_lower(&mut buffer);
    out.extend_from_slice(b"tenant ")?;
    out.extend_from_slice(name.bytes())?;
    out.push(b' ')?;
    out.extend_from_slice(token.as_bytes())?;
    push_numbers(out, &limits)?;
    out.push(b'\n')?;
    Ok(())
}

/// Appends the lines of tenants.
fn push_tenants(out: &mut Vec<u8>, tenants: &[Tenant]) -> Result<(), AllocError>
    ensures { OnOk result (out.new.items ≡ out.old.items ++ flat_map tenant_text tenants.now) }
{
    for tenant in tenants {
        push_tenant(out, tenant)?;
    }
    Ok(())
}

/// Appends the head of an audit of layout 2 with a configuration's sizes and these tenants.
pub(crate) fn push_head(
    out: &mut Vec<u8>,
    config: &Config,
    tenants: &[Tenant],
) -> Result<(), AllocError>
    ensures { OnOk result
        (out.new.items ≡ out.old.items ++ head_text (with_tenants config.now tenants.now)) }
{
    push_layout(out)?;
    push_cluster(out, config)?;
    push_tenants(out, tenants)?;
    push_begin(out)?;
    Ok(())
}
