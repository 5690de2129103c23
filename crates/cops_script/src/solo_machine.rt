//! The machine that answers the lines of one name's tenants behind the head of a script. Each
//! tenant has a world to itself.
ghost use Rattle.std.specs.Prelude.{◌≡◌, [], ◌∷◌, Some, IfOk, IsTrue, OnOk};
ghost use Rattle.std.specs.Option.{option_map_or};
ghost use Rattle.cops_types.specs.HeadLines.{is_tenant};
ghost use Rattle.cops_script.specs.HostLines.{admitted_in, closed_in};
ghost use Rattle.cops_script.specs.LineAnswers.{Answers};
ghost use Rattle.cops_types.specs.OpenSlots.{open_slot_of_name};
ghost use Rattle.cops_types.specs.Words.{first_word, parts_at, space};
ghost use Rattle.cops_model.specs.MainTheorem.{with_tenant_alone};
ghost use Rattle.cops_script.specs.Said.{OfHost, admission_of, closing_of, said_found};
ghost use Rattle.cops_model.specs.Setups.{next_slot};
ghost use Rattle.cops_script.specs.Acting.{IsNew};
ghost use Rattle.cops_script.specs.GoodHeads.{is_good};
ghost use Rattle.cops_script.specs.SoloRules.{AnswersOwn, IsGiven, StartsAlone, Takes, is_own};

use crate::bodies::Body;
use crate::host_lines::{read_admission, read_closing};
use crate::lone_tenants::with_tenant_alone;
use crate::script_machine::answer_tenant;
use crate::scripts::BadConfig;
use crate::solo_scripts::SoloRun;
use crate::{Stop, Tenancy};
use cops_types::words::split_word;
use cops_types::{Bytes, Config, OpenTenants, RequestError, Tenant};
use std::alloc::{AllocError, Global};

/// Why a tenant's lines are not answered.
#[derive(Clone, Copy, Debug, PartialEq, Eq)]
pub enum SoloRefusal {
    BadConfig(BadConfig),
    /// No tenant of the name was ever open.
    UnknownTenant,
}

/// The body that answers the lines of the tenants with this name.
#[derive(Drop)]
pub struct LinesOf {
    pub name: Bytes,
}

/// The most tenants that may be open at once.
const MOST_OPEN: u64 = 64;

/// Returns a new world with the sizes of a head, for this tenant alone.
fn begin_alone<W: Tenancy>(alloc: Global, head: &Config, tenant: &Tenant) -> Result<W, AllocError>
    requires { IsTrue (is_good (with_tenant_alone head.now tenant.now)) }
    ensures { IfOk result (IsNew W.setup W.StandsFor (with_tenant_alone head.now tenant.now)) }
{
    W::begin(alloc, with_tenant_alone(alloc, head, tenant)?)
}

/// Returns the script past a head, with a new world if the head has a tenant of the name.
fn begin_run<W: Tenancy>(alloc: Global, head: Config, name: &[u8]) -> Result<SoloRun<W>, AllocError>
    requires { IsTrue (is_good head) }
    ensures { IfOk result (StartsAlone W.setup W.StandsFor name.now head) }
{
    let tenants = OpenTenants::of(alloc, &head.tenants)?;
    let Some(slot) = tenants.slot_of_name(name) else {
        return Ok(SoloRun {
            head,
            tenants,
            was_open: false,
            world: None,
        });
    };
    let tenant = tenants.tenant_in(slot);
    let world = begin_alone(alloc, &head, tenant)?;
    Ok(SoloRun {
        head,
        tenants,
        was_open: true,
        world: Some(world),
    })
}

/// Returns the least free slot, or the number of all slots if none is free.
fn next_slot(tenants: &OpenTenants) -> u64
    ensures { result ≡ next_slot tenants.now }
{
    match tenants.least_free() {
        Some(slot) => slot,
        None => MOST_OPEN,
    }
}

/// Returns `true` if the tenant got the least free slot. If it may not be admitted nothing changed.
/// Fails if memory runs out.
fn give_slot(tenants: &mut OpenTenants, tenant: Tenant) -> Result<bool, AllocError>
    ensures { IfOk result (λ given. IsGiven tenants.old tenant given tenants.new) }
{
    let slot = next_slot(tenants);
    match tenants.admit_at(slot, tenant) {
        Ok(()) => Ok(true),
        Err(RequestError::Refused(_)) => Ok(false),
        Err(RequestError::OutOfMemory) => Err(AllocError),
    }
}

/// Admits a tenant of the name, in a new world of its own.
fn admit_named<W: Tenancy + Drop>(
    alloc: Global,
    run: &mut SoloRun<W>,
    tenant: Tenant,
) -> Result<(), AllocError>
    requires { IsTrue (is_tenant tenant) }
    ensures { OnOk result (Takes W.setup W.StandsFor tenant.name run.old
        (OfHost (admission_of run.old.tenants (Some tenant))) [] run.new) }
{
    let world = begin_alone(alloc, &run.head, &tenant)?;
    if give_slot(&mut run.tenants, tenant)? {
        run.was_open = true;
        run.world = Some(world);
    }
    Ok(())
}

/// Admits the tenant that a line gives, to the least free slot.
#[inline(never)]
fn admit<W: Tenancy + Drop>(
    alloc: Global,
    name: &[u8],
    run: &mut SoloRun<W>,
    line: &[u8],
) -> Result<(), AllocError>
    ensures { OnOk result (Takes W.setup W.StandsFor name.now run.old
        (OfHost (admission_of run.old.tenants (admitted_in line.now))) [] run.new) }
{
    let Some(tenant) = read_admission(line) else {
        return Ok(());
    };
    if tenant.name.bytes() == name {
        return admit_named(alloc, run, tenant);
    }
    give_slot(&mut run.tenants, tenant)?;
    Ok(())
}

/// Closes the slot of the tenant that a line names.
#[inline(never)]
fn close<W: Tenancy + Drop>(name: &[u8], run: &mut SoloRun<W>, line: &[u8])
    ensures { Takes W.setup W.StandsFor name.now run.old
        (OfHost (closing_of run.old.tenants (closed_in line.now))) [] run.new }
{
    let Some(closed) = read_closing(line) else {
        return;
    };
    let Some(slot) = run.tenants.slot_of_name(closed.bytes()) else {
        return;
    };
    let _closed = run.tenants.close(slot);
    if closed.bytes() == name {
        run.world = None;
    }
}

/// Appends the answer to a line of a tenant of the name.
fn answer_named<W: Tenancy>(
    run: &mut SoloRun<W>,
    word: &[u8],
    rest: Option<&[u8]>,
    line: &[u8],
    out: &mut Vec<u8>,
) -> Result<(), AllocError>
    requires word { word.now ≡ first_word line.now }
    requires rest { parts_at space line.now
        ≡ first_word line.now ∷ option_map_or (λ rest. parts_at space rest.now) rest [] }
    ensures { OnOk result (Answers (λ text new. Takes W.setup W.StandsFor word.now run.old
        (said_found line.now (open_slot_of_name run.old.tenants (first_word line.now))) text new)
        run.new out.old.items out.new.items) }
{
    match &mut run.world {
        Some(world) => answer_tenant(world, word, rest, line, out),
        None => Ok(()),
    }
}

/// Handles a line after the head.
fn answer<W: Tenancy + Drop>(
    alloc: Global,
    name: &[u8],
    run: &mut SoloRun<W>,
    line: &[u8],
    out: &mut Vec<u8>,
) -> Result<(), AllocError>
    ensures { OnOk result (Answers (λ text new. AnswersOwn W.setup W.StandsFor
        (is_own name.now line.now) name.now run.old line.now text new)
        run.new out.old.items out.new.items) }
{
    let (word, rest) = split_word(line);
    if word == b"+".as_slice() {
        return admit(alloc, name, run, line);
    }
    if word == b"-".as_slice() {
        close(name, run, line);
        return Ok(());
    }
    if word != name {
        return Ok(());
    }
    answer_named(run, word, rest, line, out)?;
    Ok(())
}

impl<W: Tenancy + Drop> Body<SoloRun<W>> for LinesOf {
    ghost use Rattle.cops_script.specs.SoloRules.{solo_rules};

    type Refusal = SoloRefusal;

    ghost rules = { solo_rules W.setup W.StandsFor };

    fn bad_head(bad: BadConfig) -> SoloRefusal {
        SoloRefusal::BadConfig(bad)
    }

    fn begin(&self, alloc: Global, config: Config) -> Result<SoloRun<W>, Stop<SoloRefusal>> {
        Ok(begin_run(alloc, config, self.name.as_slice())?)
    }

    fn line(
        &self,
        alloc: Global,
        run: &mut SoloRun<W>,
        line: &[u8],
        out: &mut Vec<u8>,
    ) -> Result<(), Stop<SoloRefusal>> {
        answer(alloc, self.name.as_slice(), run, line, out)?;
        Ok(())
    }

    fn end(&self, run: &SoloRun<W>) -> Result<(), Stop<SoloRefusal>> {
        if !run.was_open {
            return Err(Stop::Refused(SoloRefusal::UnknownTenant));
        }
        Ok(())
    }
}
