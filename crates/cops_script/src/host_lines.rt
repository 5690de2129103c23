//! The lines of the host, which admits and closes tenants.
ghost use Rattle.std.specs.Prelude.{◌≡◌, IfSome, IsTrue};
ghost use Rattle.cops_types.specs.HeadLines.{is_tenant};
ghost use Rattle.cops_script.specs.HostLines.{admitted_in, closed_in};

use cops_types::words::Words;
use cops_types::{Name, Tenant, Version, last_tenant};

/// Returns the tenant that a line admits: a plus sign, and then the words after the first of a
/// tenant's line of a head.
pub fn read_admission(line: &[u8]) -> Option<Tenant>
    ensures value { result ≡ admitted_in line.now }
    ensures good { IfSome result (λ tenant. IsTrue (is_tenant tenant)) }
{
    let mut words = Words::of(line);
    if words.next_word()? != b"+".as_slice() {
        return None;
    }
    last_tenant(&mut words, Version::LAST_CLOCK)
}

/// Returns the name of the tenant that a line closes: a hyphen, a space, and the name.
pub fn read_closing(line: &[u8]) -> Option<Name>
    ensures { result ≡ closed_in line.now }
{
    let name = line.strip_prefix(b"- ".as_slice())?;
    Name::new(name).ok()
}
