//! A replay in progress.
ghost use Rattle.std.specs.Prelude.{◌≡◌, ◌<◌, ℕ, List, Some, IfOk, IsTrue, OnOk, length, nat_le, slice_get};
ghost use Rattle.std.specs.Option.{is_some};
ghost use Rattle.cops_types.specs.declared.configs.Tenant.{Tenant};
ghost use Rattle.cops_types.specs.HeadLines.{are_sizes};
ghost use Rattle.cops_types.specs.RequestErrors.{AnswersUnless};
ghost use Rattle.cops_types.specs.TenantConfig.{TenantConfig, tenant_config};
ghost use Rattle.cops_node.specs.Parts.{are_clocks};
ghost use Rattle.cops_model.specs.MainTheorem.{with_tenant_alone};
ghost use Rattle.cops_model.specs.SoloNode.{SoloNode};
ghost use Rattle.cops_replay.specs.declared.layouts.Layout.TheVariants.{Early};
ghost use Rattle.cops_replay.specs.Replayings.{AreLoneNodes, IsBeforeRecords, IsLineReplayed, IsRecordCounted, IsReplayedLine, MayAgree, found_of};
ghost use Rattle.cops_replay.specs.ReplayText.{great_clock_of, longest_record};

use crate::Replayed;
use crate::layouts::{Layout, VersionSet};
use crate::put_exchanges::is_told;
use crate::reading::{is_record, next_asked};
use crate::replaying::LoneNodes;
use cops_types::words::Words;
use cops_types::{Config, Fault, RequestError};
use std::alloc::{AllocError, Global};
use std::marker::Model;

/// The longest line of a record, in bytes without its newline.
pub(crate) const LONGEST_RECORD: usize = 200_000;

/// A tenant's nodes after the records so far, the number of those that agreed, and the place of the
/// first that does not.
#[derive(Drop)]
pub struct Replay {
    layout: Layout,
    nodes: LoneNodes,
    passed: u64,
    found: Option<u64>,
    /// Scratch space for the text of a reply.
    place: Vec<u8>,
}

impl Model for Replay {
    ghost use Rattle.cops_replay.specs.Replayings.{Standing};

    ghost Value = { Standing };

    ghost view = { λ r. record { layout = r.layout; nodes = r.nodes; passed = r.passed; found = r.found } };
}

/// Returns `true` if a short line of layout 1 is a record that today's layout has too. Is refused
/// if only a clock is too great.
#[tactic(auto, using(crate::proofs::ReplayLemmas::early_line))]
fn is_early(alloc: Global, line: &[u8]) -> Result<bool, RequestError>
    requires short { IsTrue (nat_le (length line.now) longest_record) }
    ensures early { IfOk result (λ early. MayAgree Early line.now early) }
    ensures great { AnswersUnless (great_clock_of Early line.now) result }
{
    let early = is_record(alloc, VersionSet::Both, line)?;
    if early {
        return Ok(true);
    }
    let old = is_record(alloc, VersionSet::Layout1, line)?;
    if old {
        return Err(RequestError::Refused(Fault::ClockTooGreat));
    }
    Ok(false)
}

/// Returns `true` if the line may be a record that agrees: if it is one in today's layout, it is
/// the same in its own.
fn may_agree(alloc: Global, layout: Layout, line: &[u8]) -> Result<bool, RequestError>
    ensures may { IfOk result (λ may. MayAgree layout line.now may) }
    ensures great { AnswersUnless (great_clock_of layout line.now) result }
{
    if line.len() > LONGEST_RECORD {
        return Ok(false);
    }
    match layout {
        Layout::Today => Ok(true),
        Layout::Early => is_early(alloc, line),
    }
}

/// Executes the call of a line again if its node exists and the call fits it. Returns `true` if the
/// reply is the one in the line. `place` is scratch space.
fn agrees(
    alloc: Global,
    nodes: &mut LoneNodes,
    place: &mut Vec<u8>,
    line: &[u8],
) -> Result<bool, AllocError>
    ensures { IfOk result (λ agrees. (config : TenantConfig) (solos : List SoloNode) →
        AreLoneNodes config nodes.old solos →
        IsLineReplayed config line.now solos agrees nodes.new) }
{
    let mut words = Words::of(line);
    let found = match next_asked(alloc, VersionSet::Layout2, &mut words) {
        Ok(found) => found,
        Err(RequestError::Refused(_)) => return Ok(false),
        Err(RequestError::OutOfMemory) => return Err(AllocError),
    };
    let Some(text) = words.rest() else {
        return Ok(false);
    };
    let (_name, asked) = found;
    let Some(reply) = nodes.ask(asked)? else {
        return Ok(false);
    };
    let same = is_told(place, &reply, text)?;
    Ok(same)
}

impl Replay {
    /// Returns a replay before its first record, on new nodes for the tenant of a slot alone.
    pub(crate) fn begin(
        alloc: Global,
        layout: Layout,
        config: &Config,
        slot: u64,
    ) -> Result<Self, AllocError>
        requires sizes { IsTrue (are_sizes config.now) }
        requires slot { slot < length config.now.tenants }
        requires clocks { (tenant : Tenant) → slice_get config.now.tenants slot ≡ Some tenant →
            IsTrue (are_clocks (with_tenant_alone config.now tenant)) }
        ensures fresh { IfOk result
            (λ replay. (tenant : Tenant) → slice_get config.now.tenants slot ≡ Some tenant →
            IsBeforeRecords (tenant_config config.now tenant) replay) }
        ensures layout { IfOk result (λ replay. replay.layout ≡ layout) }
    {
        let nodes = LoneNodes::new(alloc, config, config.tenants.tenant(slot))?;
        Ok(Replay {
            layout,
            nodes,
            passed: 0,
            found: None,
            place: Vec::new(alloc),
        })
    }

    /// Returns the result so far.
    pub(crate) fn found(&self) -> Replayed
        ensures { result ≡ found_of self.now }
    {
        match self.found {
            Some(place) => Replayed::FirstDifference(place),
            None => Replayed::Same(self.passed),
        }
    }

    /// Executes the call of a line again. Returns `true` if the line is a record that agrees.
    fn agrees(&mut self, alloc: Global, line: &[u8]) -> Result<bool, AllocError>
        ensures replayed { IfOk result (λ agrees. (config : TenantConfig) (solos : List SoloNode) →
            AreLoneNodes config self.old.nodes solos →
            IsLineReplayed config line.now solos agrees self.new.nodes) }
        ensures layout { self.new.layout ≡ self.old.layout }
        ensures passed { self.new.passed ≡ self.old.passed }
        ensures found { self.new.found ≡ self.old.found }
    {
        agrees(alloc, &mut self.nodes, &mut self.place, line)
    }

    /// Records whether the next record agreed.
    fn note(&mut self, agreed: bool)
        ensures { IsRecordCounted agreed self.old self.new }
    {
        let place = self.passed.saturating_add(1);
        if agreed {
            self.passed = place;
        } else {
            self.found = Some(place);
        }
    }

    /// Returns `true` if a record differed.
    fn is_over(&self) -> bool
        ensures { result ≡ is_some self.now.found }
    {
        self.found.is_some()
    }

    /// Replays the record of the next line, unless one differed before it. In either case is refused
    /// if it is a line of layout 1 in which only a clock is too great.
    pub(crate) fn line(&mut self, alloc: Global, line: &[u8]) -> Result<(), RequestError>
        ensures replayed { OnOk result (IsReplayedLine line.now self.old self.new) }
        ensures great { AnswersUnless (great_clock_of self.old.layout line.now) result }
    {
        let may_agree = may_agree(alloc, self.layout, line)?;
        if self.is_over() {
            return Ok(());
        }
        if !may_agree {
            self.note(false);
            return Ok(());
        }
        let agreed = self.agrees(alloc, line)?;
        self.note(agreed);
        Ok(())
    }
}
