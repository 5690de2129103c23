//! The machine of an audit: it reads the head, and then passes each record's line to the body.
ghost use Rattle.std.specs.Prelude.{◌≡◌, None, Some, IfErr, IfNone, IfOk, IfSome, IsTrue, OnOk};
ghost use Rattle.cops_types.specs.Head.{AtStart};
ghost use Rattle.cops_types.specs.HeadLines.{are_sizes};
ghost use Rattle.cops_script.specs.LineAnswers.{Answers, IfRefused};
ghost use Rattle.cops_replay.specs.AuditFiles.{AuditRules, BeginsAfter, GoesOnAfter, IsAtHead, head_refuses, rules_in};
ghost use Rattle.cops_replay.specs.FileHeads.{HaveClocks};
ghost use Rattle.cops_replay.specs.declared.layouts.Layout.TheVariants.{Early};

use crate::file_heads::{
    FileHead, after_layout, layout_of_head, lines_of_head, new_file_head, read_file_head,
    tells_today,
};
use crate::layouts::Layout;
use cops_script::{BadConfig, LineMachine, Stop};
use cops_types::Config;
use std::alloc::Global;

/// A program behind the head of an audit. Its state of type `R` starts from the head's layout and
/// configuration.
pub trait AuditBody<R> {
    /// Why it refuses to start or to go on, and the refusal of a bad head.
    type Refusal;

    // How it starts, its permitted answers, and when it refuses.
    ghost rules: { AuditRules Self R Self.Refusal };

    /// Returns the refusal of a bad head.
    fn bad_head(bad: BadConfig) -> Self::Refusal
        ensures { result ≡ rules.bad_head bad };

    /// Returns the state before the first record, and appends the answer to the head to `out`.
    fn begin(
        &self,
        alloc: Global,
        layout: Layout,
        config: &Config,
        out: &mut Vec<u8>,
    ) -> Result<R, Stop<Self::Refusal>>
        requires sizes { IsTrue (are_sizes config.now) }
        requires clocks { HaveClocks layout config.now }
        ensures ok { IfOk result (λ state.
            Answers (rules.starts self.now layout config.now) state out.old.items out.new.items) }
        ensures err { IfErr result
            (λ stop. IfRefused stop (rules.refuses_start self.now layout config.now)) };

    /// Appends the answer to the next line to `out`.
    fn line(
        &self,
        alloc: Global,
        state: &mut R,
        line: &[u8],
        out: &mut Vec<u8>,
    ) -> Result<(), Stop<Self::Refusal>>
        ensures ok { OnOk result (Answers ((rules.lines self.now).answers state.old line.now)
            state.new out.old.items out.new.items) }
        ensures err { IfErr result
            (λ stop. IfRefused stop ((rules.lines self.now).refuses state.old line.now)) };

    /// Appends the answer to the end of the input to `out`.
    fn end(&self, state: &R, out: &mut Vec<u8>) -> Result<(), Stop<Self::Refusal>>
        ensures ok { OnOk result (Answers ((rules.lines self.now).ends state.now) state.now
            out.old.items out.new.items) }
        ensures err { IfErr result
            (λ stop. IfRefused stop ((rules.lines self.now).refuses_end state.now)) };
}

/// An audit in its head, or past it.
#[derive(Drop)]
pub enum AuditFile<R> {
    Head(FileHead),
    Records(R),
}

/// An audit, and the body that handles its records.
#[derive(Drop)]
pub struct AuditMachine<B, R> {
    pub body: B,
    pub file: AuditFile<R>,
}

/// Returns an audit before its first line.
pub(crate) fn new_audit<B, R>(body: B) -> AuditMachine<B, R>
    ensures body { result.body ≡ body }
    ensures head { IsAtHead Early AtStart 0 result.file }
{
    AuditMachine {
        body,
        file: AuditFile::Head(new_file_head()),
    }
}

/// Reads one more line of a head. Returns the body's state if the line ends the head.
///
/// It is not inlined, so that the lines of records need no room for a configuration.
#[inline(never)]
fn read_line<B: AuditBody<R>, R>(
    alloc: Global,
    body: &B,
    head: &mut FileHead,
    line: &[u8],
    out: &mut Vec<u8>,
) -> Result<Option<R>, Stop<B::Refusal>>
    ensures more { IfOk result (λ begun.
        IfNone begun (GoesOnAfter head.old line.now head.new out.old.items out.new.items)) }
    ensures begun { IfOk result (λ begun. IfSome begun (λ state.
        BeginsAfter B.rules body.now head.old line.now state out.old.items out.new.items)) }
    ensures err { IfErr result
        (λ stop. IfRefused stop (head_refuses B.rules body.now head.old line.now)) }
{
    let layout = layout_of_head(head);
    match read_file_head(alloc, head, line) {
        Ok(None) => Ok(None),
        Ok(Some(config)) => match body.begin(alloc, layout, &config, out) {
            Ok(state) => Ok(Some(state)),
            Err(stop) => Err(stop),
        },
        Err(Stop::Refused(bad)) => Err(Stop::Refused(B::bad_head(bad))),
        Err(Stop::OutOfMemory) => Err(Stop::OutOfMemory),
    }
}

impl<B: AuditBody<R>, R: Drop> LineMachine for AuditMachine<B, R> {
    ghost use Rattle.cops_replay.specs.AuditFiles.{audit_rules};

    type Refusal = B::Refusal;

    ghost rules = { audit_rules B.rules };

    fn line(
        &mut self,
        alloc: Global,
        line: &[u8],
        out: &mut Vec<u8>,
    ) -> Result<(), Stop<B::Refusal>> {
        match &mut self.file {
            AuditFile::Head(head) => {
                if tells_today(head, line) {
                    *head = after_layout();
                    return Ok(());
                }
                let Some(state) = read_line(alloc, &self.body, head, line, out)? else {
                    return Ok(());
                };
                self.file = AuditFile::Records(state);
                Ok(())
            }
            AuditFile::Records(state) => self.body.line(alloc, state, line, out),
        }
    }

    fn end(&mut self, _alloc: Global, out: &mut Vec<u8>) -> Result<(), Stop<B::Refusal>> {
        match &self.file {
            AuditFile::Head(head) => Err(Stop::Refused(B::bad_head(BadConfig {
                line: lines_of_head(head).saturating_add(1),
            }))),
            AuditFile::Records(state) => self.body.end(state, out),
        }
    }
}
