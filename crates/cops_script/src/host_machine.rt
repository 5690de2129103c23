//! The effect of the host's lines, which admit and close tenants.
ghost use Rattle.std.specs.Prelude.{};
ghost use Rattle.cops_script.specs.HostLines.{admitted_in, closed_in};
ghost use Rattle.cops_script.specs.Said.{admission_of, closing_of};
ghost use Rattle.cops_script.specs.Answers.{ToHost};
ghost use Rattle.cops_script.specs.Doing.{IsHosted};

use crate::Tenancy;
use crate::host_lines::{read_admission, read_closing};
use cops_model::HostReply;
use cops_types::{Fault, RequestError};

/// Admits the tenant that a line gives, to the least free slot.
#[inline(never)]
pub(crate) fn admit<W: Tenancy>(world: &mut W, line: &[u8]) -> HostReply
    ensures { IsHosted W.setup W.StandsFor world.old
        (admission_of (W.setup world.old).tenants (admitted_in line.now))
        (ToHost result) world.new }
{
    let Some(tenant) = read_admission(line) else {
        return HostReply::Denied(Fault::Syntax);
    };
    let name = tenant.name;
    match world.admit(tenant) {
        Ok(_slot) => HostReply::Admitted(name),
        Err(RequestError::Refused(fault)) => HostReply::Denied(fault),
        Err(RequestError::OutOfMemory) => HostReply::Denied(RequestError::OutOfMemory.told()),
    }
}

/// Closes the slot of the tenant that a line names.
#[inline(never)]
pub(crate) fn close<W: Tenancy>(world: &mut W, line: &[u8]) -> HostReply
    ensures { IsHosted W.setup W.StandsFor world.old
        (closing_of (W.setup world.old).tenants (closed_in line.now)) (ToHost result) world.new }
{
    let Some(name) = read_closing(line) else {
        return HostReply::Denied(Fault::Syntax);
    };
    let Some(slot) = world.tenants().slot_of_name(name.bytes()) else {
        return HostReply::Denied(Fault::UnknownTenant);
    };
    world.close(slot);
    HostReply::Closed(name)
}
