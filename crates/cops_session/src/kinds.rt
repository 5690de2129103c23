ghost use Rattle.std.specs.Prelude.{◌≡◌, ℕ};
ghost use Rattle.cops_handles.specs.Wire.{wire_of};
ghost use Rattle.cops_session.specs.Tags.{context_tag, request_tag};

use cops_context::Context;
use cops_handles::Kind;

/// The contexts of a session.
pub struct Contexts;

impl Kind for Contexts {
    type Row = Context;

    const TAG: u8 = 0x43;

    ghost TAG = { context_tag };
}

/// The requests of a session. No table has them, since only one runs at a time.
///
/// A handle of a context has another type, so the compiler refuses it as a handle of a request, and
/// parsing refuses its tag.
pub struct Running;

impl Kind for Running {
    type Row = ();

    const TAG: u8 = 0x52;

    ghost TAG = { request_tag };
}

/// Theorem: no bytes are both a handle of a context and one of a request.
pub fn handles_are_of_one_kind()
    ensures { (context request : ℕ) → wire_of context_tag context ≡ wire_of request_tag request →
        ⊥ }
{}
