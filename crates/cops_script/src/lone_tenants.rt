//! Configurations of one tenant.
ghost use Rattle.std.specs.Prelude.{◌≡◌, IfOk};
ghost use Rattle.cops_model.specs.MainTheorem.{with_tenant_alone};

use cops_types::{Config, Tenant, Tenants};
use std::alloc::{AllocError, Global};

/// Returns a configuration with this tenant alone. Fails with `AllocError` if memory runs out.
pub fn with_tenant_alone(
    alloc: Global,
    config: &Config,
    tenant: &Tenant,
) -> Result<Config, AllocError>
    ensures { IfOk result (λ alone. alone ≡ with_tenant_alone config.now tenant.now) }
{
    let mut tenants = Tenants::new(alloc);
    tenants.push(*tenant)?;
    Ok(Config {
        data_centres: config.data_centres,
        shards: config.shards,
        trans_time: config.trans_time,
        restarts: config.restarts,
        tenants,
    })
}
