//! Texts of replies, appended to a vector.
ghost use Rattle.std.specs.Option.{option_copied};
ghost use Rattle.std.specs.Prelude.{◌≡◌, ◌++◌, [], ◌∷◌, ℕ, List, codes, decimal, map, OnOk, unwrap_or};
ghost use Rattle.cops_types.specs.Words.{spaced, version_text};
ghost use Rattle.cops_model.specs.declared.replies.Reply.TheVariants.{Carried, Lists, OutOfOrder, Refused};
ghost use Rattle.cops_model.specs.declared.replies.HostReply.TheVariants.{Denied};
ghost use Rattle.cops_script.specs.ReplyText.{read_text, words_of_reply};
ghost use Rattle.cops_script.specs.ReplyWords.{later_texts};
ghost use Rattle.cops_script.specs.Answers.{host_line, reply_line};
ghost use Rattle.cops_types.specs.declared.faults.Fault.TheVariants.{UnknownTenant};

use cops_model::{HostReply, Reply};
use cops_types::texts::{push_deps, push_fault, push_near, push_number, push_version};
use cops_types::{Deps, Fault, Name, Near, OwnedValue, Pair, Read, Version};
use std::alloc::AllocError;

/// Appends the text of a reply. On `Err` a prefix of it may have been appended. Fails with
/// `AllocError` if memory runs out.
pub fn push_reply(out: &mut Vec<u8>, reply: &Reply) -> Result<(), AllocError>
    ensures { OnOk result (out.new.items ≡ out.old.items ++ spaced (words_of_reply reply.now)) }
{
    match reply {
        Reply::Opened => push_word(out, b"opened"),
        Reply::Created(number) => push_count(out, b"context", *number),
        Reply::Deleted => push_word(out, b"dropped"),
        Reply::Started => push_word(out, b"started"),
        Reply::Lists(all, near) => push_lists(out, all, near),
        Reply::Working => push_word(out, b"working"),
        Reply::Restarted(times) => push_count(out, b"restarted", *times),
        Reply::Stored(pair) => push_pair_after(out, b"stored", pair),
        Reply::Values(reads) => push_reads(out, reads.as_slice()),
        Reply::Nothing => push_word(out, b"nothing"),
        Reply::Waits(pair) => push_pair_after(out, b"waits", pair),
        Reply::Carried(pair, fresh, acked) => push_carried(out, pair, *fresh, *acked),
        Reply::OutOfOrder(mark) => push_mark(out, *mark),
        Reply::Removed(count) => push_count(out, b"removed", *count),
        Reply::Refused(fault) => push_fault(out, *fault),
    }
}

/// Appends a tenant's name, a space, the text of a reply and a newline. On `Err` a prefix of it may
/// have been appended.
pub(crate) fn push_answer(out: &mut Vec<u8>, name: &Name, reply: &Reply) -> Result<(), AllocError>
    ensures { OnOk result (out.new.items ≡ out.old.items ++ reply_line name.now reply.now) }
{
    push_word(out, name.bytes())?;
    out.push(b' ')?;
    push_reply(out, reply)?;
    out.push(b'\n')?;
    Ok(())
}

/// Appends a tenant's name, a space, the code of a fault and a newline. On `Err` a prefix of it may
/// have been appended.
///
/// It is separate from other answers, so that their code occurs once, in the place that answers a
/// line.
#[inline(never)]
pub(crate) fn push_refusal(out: &mut Vec<u8>, name: &Name, fault: Fault) -> Result<(), AllocError>
    ensures { OnOk result (out.new.items ≡ out.old.items ++ reply_line name.now (Refused fault)) }
{
    push_word(out, name.bytes())?;
    out.push(b' ')?;
    push_fault(out, fault)?;
    out.push(b'\n')?;
    Ok(())
}

/// Appends the answer to a line that names no tenant, and a newline. On `Err` a prefix of it may
/// have been appended.
pub(crate) fn push_nobody(out: &mut Vec<u8>) -> Result<(), AllocError>
    ensures { OnOk result (out.new.items ≡ out.old.items ++ host_line (Denied UnknownTenant)) }
{
    push_word(out, b"- E02\n")
}

/// Appends a hyphen, a space, the text of a reply to the host and a newline. On `Err` a prefix of
/// it may have been appended.
#[inline(never)]
pub(crate) fn push_host(out: &mut Vec<u8>, reply: &HostReply) -> Result<(), AllocError>
    ensures { OnOk result (out.new.items ≡ out.old.items ++ host_line reply.now) }
{
    push_word(out, b"- ")?;
    match reply {
        HostReply::Admitted(name) => push_name_after(out, b"admitted", name)?,
        HostReply::Closed(name) => push_name_after(out, b"closed", name)?,
        HostReply::Denied(fault) => push_fault(out, *fault)?,
    }
    out.push(b'\n')?;
    Ok(())
}

/// Appends a word and a name.
fn push_name_after(out: &mut Vec<u8>, word: &[u8], name: &Name) -> Result<(), AllocError>
    ensures { OnOk result (out.new.items ≡ out.old.items ++ word.now ++ 32 ∷ name.now) }
{
    push_word(out, word)?;
    out.push(b' ')?;
    push_word(out, name.bytes())
}

/// Appends these bytes.
fn push_word(out: &mut Vec<u8>, word: &[u8]) -> Result<(), AllocError>
    ensures { OnOk result (out.new.items ≡ out.old.items ++ word.now) }
{
    out.extend_from_slice(word)?;
    Ok(())
}

/// Appends a word and a number.
fn push_count(out: &mut Vec<u8>, word: &[u8], number: u64) -> Result<(), AllocError>
    ensures { OnOk result
        (out.new.items ≡ out.old.items ++ spaced (word.now ∷ decimal number ∷ [])) }
{
    push_word(out, word)?;
    out.push(b' ')?;
    push_number(out, number)
}

/// Appends a word, a key and a version.
fn push_pair_after(out: &mut Vec<u8>, word: &[u8], pair: &Pair) -> Result<(), AllocError>
    ensures { OnOk result (out.new.items
        ≡ out.old.items ++ spaced (word.now ∷ pair.now.key ∷ version_text pair.now.version ∷ [])) }
{
    push_word(out, word)?;
    out.push(b' ')?;
    push_word(out, pair.key.bytes())?;
    out.push(b' ')?;
    push_version(out, pair.version)
}

/// Appends the two lists of a context.
fn push_lists(out: &mut Vec<u8>, all: &Deps, near: &Near) -> Result<(), AllocError>
    ensures { OnOk result
        (out.new.items ≡ out.old.items ++ spaced (words_of_reply (Lists all.now near.now))) }
{
    push_word(out, b"all ")?;
    push_deps(out, all.owned())?;
    push_word(out, b" near ")?;
    push_near(out, near.owned())
}

/// Appends the outcome for a stream's head.
fn push_carried(out: &mut Vec<u8>, pair: &Pair, fresh: bool, acked: bool) -> Result<(), AllocError>
    ensures { OnOk result
        (out.new.items ≡ out.old.items ++ spaced (words_of_reply (Carried pair.now fresh acked))) }
{
    let committed: &[u8] = if fresh { b"committed" } else { b"already" };
    let taken: &[u8] = if acked { b" acked" } else { b" notfront" };
    push_pair_after(out, committed, pair)?;
    push_word(out, taken)
}

/// Appends the version that was committed last.
fn push_mark(out: &mut Vec<u8>, mark: Version) -> Result<(), AllocError>
    ensures { OnOk result
        (out.new.items ≡ out.old.items ++ spaced (words_of_reply (OutOfOrder mark))) }
{
    push_word(out, b"outoforder ")?;
    push_version(out, mark)
}

/// Appends the reads, separated by spaces.
fn push_reads(out: &mut Vec<u8>, reads: &[Read]) -> Result<(), AllocError>
    ensures { OnOk result (out.new.items ≡ out.old.items ++ spaced (map read_text reads.now)) }
{
    let Some((first, rest)) = reads.split_first() else {
        return Ok(());
    };
    push_read(out, first)?;
    push_later(out, rest)
}

/// Appends each read after a space.
fn push_later(out: &mut Vec<u8>, reads: &[Read]) -> Result<(), AllocError>
    ensures { OnOk result (out.new.items ≡ out.old.items ++ later_texts reads.now) }
{
    for read in reads {
        out.push(b' ')?;
        push_read(out, read)?;
    }
    Ok(())
}

/// Appends the key, `=`, the value or `none`, `@` and the version.
fn push_read(out: &mut Vec<u8>, read: &Read) -> Result<(), AllocError>
    ensures { OnOk result (out.new.items ≡ out.old.items ++ read_text read.now) }
{
    push_word(out, read.key().bytes())?;
    out.push(b'=')?;
    push_value(out, read.value())?;
    out.push(b'@')?;
    push_version(out, read.version())
}

/// Appends the value, or `none`.
fn push_value(out: &mut Vec<u8>, value: Option<&OwnedValue>) -> Result<(), AllocError>
    ensures { OnOk result
        (out.new.items ≡ out.old.items ++ unwrap_or (option_copied value.entry) (codes "none")) }
{
    match value {
        Some(value) => push_word(out, value.bytes()),
        None => push_word(out, b"none"),
    }
}
