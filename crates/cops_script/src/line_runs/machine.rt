//! Machines that answer lines.
ghost use Rattle.std.specs.Prelude.{◌≡◌, OnOk, IfErr};
ghost use Rattle.cops_script.specs.declared.line_runs.machine.Stop.TheVariants.{OutOfMemory};
ghost use Rattle.cops_script.specs.LineAnswers.{Answers, IfRefused};
ghost use Rattle.cops_script.specs.LineRules.{LineRules};

use std::alloc::{AllocError, Global};

/// Why a machine ends a run before the end of its input.
#[derive(Clone, Copy, Debug, PartialEq, Eq)]
pub enum Stop<F> {
    Refused(F),
    OutOfMemory,
}

impl<F> From<AllocError> for Stop<F> {
    ghost from_gives = { λ _ stop. stop ≡ OutOfMemory };

    fn from(_error: AllocError) -> Stop<F> {
        Stop::OutOfMemory
    }
}

/// A machine that answers each line of a text.
pub trait LineMachine {
    /// Why it refuses to go on.
    type Refusal;

    // Its permitted answers, and when it refuses.
    ghost rules: { LineRules Self Self.Refusal };

    /// Appends the answer to the next line, which comes without its newline, to `out`.
    fn line(
        &mut self,
        alloc: Global,
        line: &[u8],
        out: &mut Vec<u8>,
    ) -> Result<(), Stop<Self::Refusal>>
        ensures ok { OnOk result
            (Answers (rules.answers self.old line.now) self.new out.old.items out.new.items) }
        ensures err { IfErr result (λ stop. IfRefused stop (rules.refuses self.old line.now)) };

    /// Appends the answer to the end of the input to `out`.
    fn end(&mut self, alloc: Global, out: &mut Vec<u8>) -> Result<(), Stop<Self::Refusal>>
        ensures ok { OnOk result
            (Answers (rules.ends self.old) self.new out.old.items out.new.items) }
        ensures err { IfErr result (λ stop. IfRefused stop (rules.refuses_end self.old)) };
}
