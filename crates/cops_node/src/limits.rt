//! The conditions under which nodes can be made of a configuration.
ghost use Rattle.std.specs.Prelude.{◌≡◌, nat_le};
ghost use Rattle.std.specs.List.{list_all};
ghost use Rattle.cops_types.specs.Version.{last_clock};
ghost use Rattle.cops_node.specs.Parts.{are_clocks};

use cops_types::{Config, Tenant, Version};

/// The greatest clock.
const LAST_CLOCK: u64 = Version::LAST_CLOCK;

// Returns `true` if each first clock is at most the greatest clock.
fn are_within(tenants: &[Tenant]) -> bool
    ensures { result ≡ list_all (λ tenant. nat_le tenant.first_clock last_clock) tenants.now }
{
    tenants
        .iter()
        .all(|tenant| tenant.first_clock <= LAST_CLOCK)
}

/// Returns `true` if each tenant's first clock is at most the greatest clock.
pub fn has_clocks(config: &Config) -> bool
    ensures { result ≡ are_clocks config.now }
{
    are_within(config.tenants.as_slice())
}
