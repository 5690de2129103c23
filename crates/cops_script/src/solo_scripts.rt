//! A script past its head whose answers are written for one name's tenants.
ghost use Rattle.std.specs.Prelude.{◌≡◌, IsFalse, IsTrue, None};
ghost use Rattle.cops_script.specs.GoodHeads.{is_good};

use cops_types::{Config, OpenTenants};

/// The state of such a script.
#[derive(Drop)]
pub struct SoloRun<W> {
    /// Its sizes and limits are those of all worlds.
    pub head: Config,
    /// The tenants that are open now, of any name.
    pub tenants: OpenTenants,
    /// `true` if a tenant of the name was open at any time.
    pub was_open: bool,
    /// While a tenant of the name is open: its own world.
    pub world: Option<W>,
    ghost good: { IsTrue (is_good head) },
    ghost silent: { IsFalse was_open → world ≡ None },
}
