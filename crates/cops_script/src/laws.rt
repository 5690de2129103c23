ghost use Rattle.std.specs.Prelude.{◌≡◌, ◌⊎◌, ◌<◌, ℕ, List, [], ◌++◌, ◌+◌, length, take, IsTrue, Option, Some};
ghost use Rattle.cops_types.specs.declared.configs.Config.{Config};
ghost use Rattle.cops_types.specs.declared.configs.Tenant.{Tenant};
ghost use Rattle.cops_types.specs.declared.faults.Fault.TheVariants.{OutOfMemory};
ghost use Rattle.cops_types.specs.Head.{Whole, head_of};
ghost use Rattle.cops_types.specs.HeadLines.{is_name};
ghost use Rattle.cops_types.specs.Lines.{lines_of, longest_line};
ghost use Rattle.cops_model.specs.declared.acts.Act.{Act};
ghost use Rattle.cops_model.specs.Events.{IsFrontOf, before_lack};
ghost use Rattle.cops_script.specs.ActLines.{IsActLine, act_in};
ghost use Rattle.cops_script.specs.Meaning.{Means};
ghost use Rattle.cops_script.specs.Said.{Admits, OfHost, Refuses, Said, said_in};
ghost use Rattle.cops_script.specs.OpenNames.{AreOpenNamed};
ghost use Rattle.cops_script.specs.Answers.{Answer};
ghost use Rattle.cops_script.specs.Script.{Written, all_tenants, answers_of, answers_to, script_out, solo_out, text_for, was_open};
ghost use Rattle.cops_script.specs.ScriptRuns.{AnswersScript, AreAnswered, AreSpared, config_told, lives_told, replies_to};

/// Theorem: a line of a tenant is at most one act, and `act_in` finds it.
pub fn line_is_one_act()
    ensures one { (tenant line : List ℕ) (act other : Act) → IsTrue (is_name tenant) →
        IsActLine tenant line act → IsActLine tenant line other → act ≡ other }
    ensures found { (tenant line : List ℕ) (act : Act) → IsTrue (is_name tenant) →
        IsActLine tenant line act → act_in tenant line ≡ Some act }
    ensures only { (tenant line : List ℕ) (act : Act) → act_in tenant line ≡ Some act →
        IsActLine tenant line act }
{}

/// Theorem: a line means what its first bytes mean: those of the longest line, and one more.
pub fn long_line_may_be_cut()
    ensures { (tenants : List (Option Tenant)) (line : List ℕ) → AreOpenNamed tenants →
        said_in tenants (take (longest_line + 1) line) ≡ said_in tenants line }
{}

/// Theorem: of a script's output, the lines of the tenants of one name are the output for them
/// alone.
pub fn tenants_lines_are_those_alone()
    ensures { (bytes name : List ℕ) (config : Config) (lines : List (List ℕ)) →
        head_of (lines_of bytes) ≡ Whole config lines → IsTrue (was_open config name lines) →
        solo_out name bytes
        ≡ Written (text_for (all_tenants config lines) name (answers_to config lines)) }
{}

/// Theorem: `said_in` computes the rules of `Means`. A line means one request, but an admission may
/// run out of memory.
pub fn rules_give_one_meaning()
    ensures found { (tenants : List (Option Tenant)) (line : List ℕ) → AreOpenNamed tenants →
        Means tenants line (said_in tenants line) }
    ensures only { (tenants : List (Option Tenant)) (line : List ℕ) (said : Said) →
        AreOpenNamed tenants → Means tenants line said →
        (said_in tenants line ≡ said) ⊎ ((said ≡ OfHost (Refuses OutOfMemory)) × (slot : ℕ)
        × (tenant : Tenant) × (said_in tenants line ≡ OfHost (Admits slot tenant))) }
{}

/// Theorem: if no answer to a script is out of memory, the answers are the definition's output. So
/// are the answers to its first lines, as far as they go. It follows from the main theorem.
pub fn spared_answers_are_the_output()
    ensures whole { (bytes text : List ℕ) (answers : AnswersScript bytes [] text) →
        AreSpared answers.told → script_out bytes ≡ Written text }
    ensures first { (bytes text : List ℕ) (others : List (List ℕ))
        (answers : AnswersScript bytes others text) → AreSpared answers.told →
        (rest : List ℕ) × (script_out bytes ≡ Written (text ++ rest)) }
{}

/// Up to its first out-of-memory reply a tenant of a script has the replies of the definition, whatever
/// replies others get. It follows from the main theorem, as every run of the script has it.
pub fn replies_begin_as_defined()
    ensures { (config : Config) (lines : List (List ℕ)) (told : List Answer) (number : ℕ) →
        AreAnswered (config_told config lines told) (lives_told config lines told) told →
        number < length (config_told config lines told).tenants →
        IsFrontOf (before_lack (replies_to number told)) (replies_to number
        (answers_of (config_told config lines told) (lives_told config lines told))) }
{}
