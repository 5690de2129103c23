//! Splits pieces into lines.
ghost use Rattle.std.specs.Prelude.{◌≡◌, ◌+◌, ◌-◌, ◌^◌, ◌<◌, ◌≤◌, ◌∷◌, ◌++◌, length, take, IfSome, IfNone, OnOk};
ghost use Rattle.cops_types.specs.Lines.{IsUnbroken, cut_line};

use std::alloc::AllocError;

/// Returns the first line, without its newline, and the bytes after it.
pub(crate) fn split_line(bytes: &[u8]) -> Option<(&[u8], &[u8])>
    ensures some { IfSome result
        (λ parts. IsUnbroken parts.0.now × (bytes.now ≡ parts.0.now ++ 10 ∷ parts.1.now)) }
    ensures none { IfNone result (IsUnbroken bytes.now) }
{
    let at = memchr::memchr(b'\n', bytes)?;
    Some((&bytes[..at], &bytes[at + 1..]))
}

/// Returns a line as a machine sees it.
pub(crate) fn cut(line: &[u8], limit: usize) -> &[u8]
    ensures { result.now ≡ cut_line limit line.now }
{
    if limit < line.len() {
        &line[..limit + 1]
    } else {
        line
    }
}

/// Appends more of a line that is not over to its stored beginning, as far as a machine sees it.
pub(crate) fn extend_cut(front: &mut Vec<u8>, more: &[u8], limit: usize) -> Result<(), AllocError>
    requires limit { limit < 2 ^ 63 }
    requires front { length front.old.items ≤ limit + 1 }
    ensures { OnOk result (front.new.items ≡ cut_line limit (front.old.items ++ more.now)) }
{
    let room = limit + 1 - front.len();
    front.extend_from_slice(&more[..more.len().min(room)])?;
    Ok(())
}
