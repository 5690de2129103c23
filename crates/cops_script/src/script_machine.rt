//! The machine that answers all lines behind the head of a script.
ghost use Rattle.std.specs.Prelude.{◌≡◌, [], ◌∷◌, is_some, IsTrue, OnOk};
ghost use Rattle.std.specs.Option.{option_map_or};
ghost use Rattle.cops_script.specs.LineAnswers.{Answers};
ghost use Rattle.cops_types.specs.Words.{first_word, parts_at, space};
ghost use Rattle.cops_types.specs.OpenSlots.{open_at, open_slot_of_name};
ghost use Rattle.cops_script.specs.Said.{said_found, said_in};
ghost use Rattle.cops_script.specs.Answers.{open_name};
ghost use Rattle.cops_script.specs.AllRules.{IsAnswered};

use crate::bodies::Body;
use crate::host_machine::{admit, close};
use crate::lines::{read_act, words_of_act};
use crate::scripts::BadConfig;
use crate::texts::{push_answer, push_host, push_nobody, push_refusal};
use crate::{Stop, Tenancy};
use cops_types::words::split_word;
use cops_types::{Config, Fault, Name, OpenTenants, RequestError};
use std::alloc::{AllocError, Global};

/// Returns the name of the tenant that is open in a slot.
fn name_at(tenants: &OpenTenants, slot: u64) -> Name
    requires { IsTrue (is_some (open_at slot tenants.now)) }
    ensures { result ≡ open_name tenants.now slot }
{
    tenants.tenant_in(slot).name
}

/// Appends the answer to a line that names a tenant.
pub(crate) fn answer_tenant<W: Tenancy>(
    world: &mut W,
    word: &[u8],
    rest: Option<&[u8]>,
    line: &[u8],
    out: &mut Vec<u8>,
) -> Result<(), AllocError>
    requires word { word.now ≡ first_word line.now }
    requires rest { parts_at space line.now
        ≡ first_word line.now ∷ option_map_or (λ rest. parts_at space rest.now) rest [] }
    ensures { OnOk result
        (Answers (λ text new. IsAnswered W.setup W.StandsFor world.old (said_found line.now
        (open_slot_of_name (W.setup world.old).tenants (first_word line.now))) text new)
        world.new out.old.items out.new.items) }
{
    let tenants = world.tenants();
    let Some(slot) = tenants.slot_of_name(word) else {
        return push_nobody(out);
    };
    let name = name_at(tenants, slot);
    // Each branch writes its own answer: an act and a reply are large, and would be copied at a
    // join.
    let Some(words) = words_of_act(line, rest) else {
        return push_refusal(out, &name, Fault::Syntax);
    };
    match &read_act(words) {
        Some(act) => match world.act(slot, act) {
            Ok(reply) => push_answer(out, &name, &reply),
            Err(error) => push_refusal(out, &name, RequestError::from(error).told()),
        },
        None => push_refusal(out, &name, Fault::Syntax),
    }
}

/// Appends the answer to a line after the head.
fn answer<W: Tenancy>(world: &mut W, line: &[u8], out: &mut Vec<u8>) -> Result<(), AllocError>
    ensures { OnOk result (Answers (λ text new. IsAnswered W.setup W.StandsFor world.old
        (said_in (W.setup world.old).tenants line.now) text new)
        world.new out.old.items out.new.items) }
{
    let (word, rest) = split_word(line);
    if word == b"+".as_slice() {
        let reply = admit(world, line);
        return push_host(out, &reply);
    }
    if word == b"-".as_slice() {
        let reply = close(world, line);
        return push_host(out, &reply);
    }
    answer_tenant(world, word, rest, line, out)
}

/// The body that answers each line, in one world of all tenants.
#[derive(Clone, Copy)]
pub struct AllLines;

impl<W: Tenancy + Drop> Body<W> for AllLines {
    ghost use Rattle.cops_script.specs.AllRules.{all_rules};

    type Refusal = BadConfig;

    ghost rules = { all_rules W.setup W.StandsFor };

    fn bad_head(bad: BadConfig) -> BadConfig {
        bad
    }

    fn begin(&self, alloc: Global, config: Config) -> Result<W, Stop<BadConfig>> {
        Ok(W::begin(alloc, config)?)
    }

    fn line(
        &self,
        _alloc: Global,
        world: &mut W,
        line: &[u8],
        out: &mut Vec<u8>,
    ) -> Result<(), Stop<BadConfig>> {
        answer(world, line, out)?;
        Ok(())
    }

    fn end(&self, _world: &W) -> Result<(), Stop<BadConfig>> {
        Ok(())
    }
}
