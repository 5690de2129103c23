//! The programs that run behind the head of a script.
ghost use Rattle.std.specs.Prelude.{◌≡◌, [], IfErr, IfOk, IsTrue, OnOk};
ghost use Rattle.cops_script.specs.BodyRules.{BodyRules};
ghost use Rattle.cops_script.specs.GoodHeads.{is_good};
ghost use Rattle.cops_script.specs.LineAnswers.{Answers, IfRefused};

use crate::Stop;
use crate::scripts::BadConfig;
use cops_types::Config;
use std::alloc::Global;

/// A program behind the head of a script. Its state of type `R` starts from the head's
/// configuration.
pub trait Body<R> {
    /// Why it refuses to start or to go on, and the refusal of a bad head.
    type Refusal;

    // How it starts, its permitted answers, and when it refuses.
    ghost rules: { BodyRules Self R Self.Refusal };

    /// Returns the refusal of a bad head.
    fn bad_head(bad: BadConfig) -> Self::Refusal
        ensures { result ≡ rules.bad_head bad };

    /// Returns the state before the first line behind a head.
    fn begin(&self, alloc: Global, config: Config) -> Result<R, Stop<Self::Refusal>>
        requires { IsTrue (is_good config) }
        ensures ok { IfOk result (rules.starts self.now config) }
        ensures err { IfErr result (λ stop. IfRefused stop (rules.refuses_start self.now config)) };

    /// Appends the answer to the next line to `out`.
    fn line(
        &self,
        alloc: Global,
        state: &mut R,
        line: &[u8],
        out: &mut Vec<u8>,
    ) -> Result<(), Stop<Self::Refusal>>
        ensures ok { OnOk result (Answers ((rules.lines self.now).answers state.old line.now)
            state.new out.old.items out.new.items) }
        ensures err { IfErr result
            (λ stop. IfRefused stop ((rules.lines self.now).refuses state.old line.now)) };

    /// Handles the end of the input, whose answer is empty.
    fn end(&self, state: &R) -> Result<(), Stop<Self::Refusal>>
        ensures ok { OnOk result ((rules.lines self.now).ends state.now [] state.now) }
        ensures err { IfErr result
            (λ stop. IfRefused stop ((rules.lines self.now).refuses_end state.now)) };
}
