//! The machine of a script: it reads the head, and then passes each line to the body.
ghost use Rattle.std.specs.Prelude.{◌≡◌, [], Some, IfErr, IfNone, IfOk, IfSome, OnOk};
ghost use Rattle.cops_types.specs.declared.configs.Config.{Config as Setup};
ghost use Rattle.cops_types.specs.Head.{AtStart, Begun};
ghost use Rattle.cops_types.specs.HeadReader.{front_with};
ghost use Rattle.cops_script.specs.GoodHeads.{HeadContinues};
ghost use Rattle.cops_script.specs.HeadRules.{IsHeadAt};
ghost use Rattle.cops_script.specs.LineAnswers.{IfRefused};
ghost use Rattle.cops_script.specs.ScriptRules.{head_refuses, line_answers, line_refuses, rules_in};
ghost use Rattle.cops_script.specs.declared.scripts.Script.TheVariants.{Head};

use crate::bodies::Body;
use crate::scripts::{BadConfig, HeadSoFar, Script, read_head};
use crate::{LineMachine, Stop};
use cops_types::ConfigReader;
use std::alloc::Global;

/// A script, and the body that handles its lines.
#[derive(Drop)]
pub struct ScriptMachine<B, R> {
    pub body: B,
    pub script: Script<R>,
}

/// Returns a script before its first line.
pub fn new_script<B, R>(body: B) -> ScriptMachine<B, R>
    ensures body { result.body ≡ body }
    ensures head { IsHeadAt AtStart 0 result.script }
{
    ScriptMachine {
        body,
        script: Script::Head(HeadSoFar {
            reader: ConfigReader::new(),
            lines: 0,
        }),
    }
}

/// Reads one more line of a head. Returns the body's state if the line ends the head.
///
/// It is not inlined, so that the lines of a running script need no room for a configuration.
#[inline(never)]
fn read_line<B: Body<R>, R>(
    alloc: Global,
    body: &B,
    head: &mut HeadSoFar,
    line: &[u8],
) -> Result<Option<R>, Stop<B::Refusal>>
    ensures more { IfOk result (λ begun. IfNone begun
        (HeadContinues head.old.reader head.old.lines line.now head.new.reader head.new.lines)) }
    ensures begun { IfOk result (λ begun. IfSome begun
        (λ state. (config : Setup) × (front_with head.old.reader line.now ≡ Some (Begun config))
        × B.rules.starts body.now config state)) }
    ensures err { IfErr result
        (λ stop. IfRefused stop (head_refuses B.rules body.now head.old line.now)) }
{
    match read_head(alloc, head, line) {
        Ok(None) => Ok(None),
        Ok(Some(config)) => match body.begin(alloc, config) {
            Ok(state) => Ok(Some(state)),
            Err(stop) => Err(stop),
        },
        Err(Stop::Refused(bad)) => Err(Stop::Refused(B::bad_head(bad))),
        Err(Stop::OutOfMemory) => Err(Stop::OutOfMemory),
    }
}

/// Handles a line of a head. If it ends the head, the script runs from then on.
///
/// It is not inlined, so that the lines of a running script zero no room for a state.
#[inline(never)]
fn line_of_head<B: Body<R>, R: Drop>(
    alloc: Global,
    body: &B,
    script: &mut Script<R>,
    line: &[u8],
) -> Result<(), Stop<B::Refusal>>
    requires { (head : HeadSoFar) × (script.old ≡ Head head) }
    ensures ok { OnOk result (line_answers B.rules body.now script.old line.now [] script.new) }
    ensures err { IfErr result
        (λ stop. IfRefused stop (line_refuses B.rules body.now script.old line.now)) }
{
    let Script::Head(head) = script else {
        unreachable!()
    };
    let Some(state) = read_line(alloc, body, head, line)? else {
        return Ok(());
    };
    *script = Script::Running(state);
    Ok(())
}

impl<B: Body<R>, R: Drop> LineMachine for ScriptMachine<B, R> {
    ghost use Rattle.cops_script.specs.ScriptRules.{script_rules};

    type Refusal = B::Refusal;

    ghost rules = { script_rules B.rules };

    fn line(
        &mut self,
        alloc: Global,
        line: &[u8],
        out: &mut Vec<u8>,
    ) -> Result<(), Stop<B::Refusal>> {
        match &mut self.script {
            Script::Head(_) => line_of_head(alloc, &self.body, &mut self.script, line),
            Script::Running(state) => self.body.line(alloc, state, line, out),
        }
    }

    fn end(&mut self, _alloc: Global, _out: &mut Vec<u8>) -> Result<(), Stop<B::Refusal>> {
        match &self.script {
            Script::Head(head) => Err(Stop::Refused(B::bad_head(BadConfig {
                line: head.lines.saturating_add(1),
            }))),
            Script::Running(state) => self.body.end(state),
        }
    }
}
