//! The machine that executes all lines behind the head of a script, and writes nothing.
ghost use Rattle.std.specs.Prelude.{◌≡◌, IsFalse, IsTrue, OnErr, OnOk};
ghost use Rattle.cops_types.specs.OpenSlots.{open_slot_of_name};
ghost use Rattle.cops_types.specs.Words.{first_word};
ghost use Rattle.cops_script.specs.ActLines.{act_in};
ghost use Rattle.cops_model.specs.Events.{is_out_of_memory};
ghost use Rattle.cops_model.specs.declared.replies.Reply.TheVariants.{Refused};
ghost use Rattle.cops_script.specs.Said.{said_found, said_by, said_in};
ghost use Rattle.cops_model.specs.Setups.{is_open_at};
ghost use Rattle.cops_script.specs.Acting.{told_act};
ghost use Rattle.cops_script.specs.Answers.{ToHost, is_lack};
ghost use Rattle.cops_script.specs.SilentRules.{HasLacked, IsDoneWhole};

use crate::bodies::Body;
use crate::host_machine::{admit, close};
use crate::lines::parse_act;
use crate::scripts::BadConfig;
use crate::{Stop, Tenancy};
use cops_model::{HostReply, Reply};
use cops_types::words::split_word;
use cops_types::{Config, Fault};
use std::alloc::{AllocError, Global};

/// Does what each line says in one world of all tenants, and writes no reply.
#[derive(Clone, Copy)]
pub struct SilentLines;

/// Fails if a fault says that memory ran out.
fn unless_out_of_memory(fault: Fault) -> Result<(), AllocError>
    ensures done { OnOk result (IsFalse (is_out_of_memory (Refused fault))) }
    ensures lacked { OnErr result (IsTrue (is_out_of_memory (Refused fault))) }
{
    match fault {
        Fault::OutOfMemory => Err(AllocError),
        _ => Ok(()),
    }
}

/// Fails if memory ran out during an act. A step shows what a node answered, whatever that was.
fn unless_act_lacked(answered: &Result<Reply, AllocError>) -> Result<(), AllocError>
    ensures done { OnOk result (IsFalse (is_out_of_memory (told_act answered.now))) }
    ensures lacked { OnErr result (IsTrue (is_out_of_memory (told_act answered.now))) }
{
    match answered {
        Ok(Reply::Refused(fault)) => unless_out_of_memory(*fault),
        Ok(_) => Ok(()),
        Err(error) => Err(*error),
    }
}

/// Fails if a reply to the host says that memory ran out.
fn unless_host_lacked(reply: &HostReply) -> Result<(), AllocError>
    ensures done { OnOk result (IsFalse (is_lack (ToHost reply.now))) }
    ensures lacked { OnErr result (IsTrue (is_lack (ToHost reply.now))) }
{
    match reply {
        HostReply::Denied(fault) => unless_out_of_memory(*fault),
        _ => Ok(()),
    }
}

/// Lets the tenant who is open at the slot do what the line says. Fails with `AllocError` if memory
/// runs out.
fn act_for<W: Tenancy>(world: &mut W, slot: u64, line: &[u8]) -> Result<(), AllocError>
    requires { IsTrue (is_open_at (W.setup world.old) slot) }
    ensures done { OnOk result (IsDoneWhole W.setup W.StandsFor world.old
        (said_by slot (act_in (first_word line.now) line.now)) world.new) }
    ensures lacked { OnErr result (HasLacked W.setup W.StandsFor world.old
        (said_by slot (act_in (first_word line.now) line.now)) world.new) }
{
    let Some(act) = parse_act(line) else {
        return Ok(());
    };
    let answered = world.act(slot, &act);
    unless_act_lacked(&answered)
}

/// Lets the tenant whom a line names do what it says. Fails with `AllocError` if memory runs out.
fn act_tenant<W: Tenancy>(world: &mut W, word: &[u8], line: &[u8]) -> Result<(), AllocError>
    requires { word.now ≡ first_word line.now }
    ensures done { OnOk result (IsDoneWhole W.setup W.StandsFor world.old (said_found line.now
        (open_slot_of_name (W.setup world.old).tenants (first_word line.now))) world.new) }
    ensures lacked { OnErr result (HasLacked W.setup W.StandsFor world.old (said_found line.now
        (open_slot_of_name (W.setup world.old).tenants (first_word line.now))) world.new) }
{
    let Some(slot) = world.tenants().slot_of_name(word) else {
        return Ok(());
    };
    act_for(world, slot, line)
}

/// Does what a line after the head says. Fails with `AllocError` if memory runs out.
fn act<W: Tenancy>(world: &mut W, line: &[u8]) -> Result<(), AllocError>
    ensures done { OnOk result (IsDoneWhole W.setup W.StandsFor world.old
        (said_in (W.setup world.old).tenants line.now) world.new) }
    ensures lacked { OnErr result (HasLacked W.setup W.StandsFor world.old
        (said_in (W.setup world.old).tenants line.now) world.new) }
{
    let (word, _rest) = split_word(line);
    if word == b"+".as_slice() {
        let reply = admit(world, line);
        return unless_host_lacked(&reply);
    }
    if word == b"-".as_slice() {
        let reply = close(world, line);
        return unless_host_lacked(&reply);
    }
    act_tenant(world, word, line)
}

impl<W: Tenancy + Drop> Body<W> for SilentLines {
    ghost use Rattle.cops_script.specs.SilentRules.{silent_rules};

    type Refusal = BadConfig;

    ghost rules = { silent_rules W.setup W.StandsFor };

    fn bad_head(bad: BadConfig) -> BadConfig {
        bad
    }

    fn begin(&self, alloc: Global, config: Config) -> Result<W, Stop<BadConfig>> {
        Ok(W::begin(alloc, config)?)
    }

    fn line(
        &self,
        _alloc: Global,
        world: &mut W,
        line: &[u8],
        _out: &mut Vec<u8>,
    ) -> Result<(), Stop<BadConfig>> {
        act(world, line)?;
        Ok(())
    }

    fn end(&self, _world: &W) -> Result<(), Stop<BadConfig>> {
        Ok(())
    }
}
