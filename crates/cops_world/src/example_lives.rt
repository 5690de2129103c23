//! A worked example of `run_lives`.
ghost use Rattle.std.specs.Prelude.{◌≡◌, List, IsFalse, IsTrue};
ghost use Rattle.std.specs.List.{AllByRecursion, list_any};
ghost use Rattle.cops_script.specs.GoodHeads.{is_good};
ghost use Rattle.cops_world.specs.declared.host_runs.LifeReply.{LifeReply};
ghost use Rattle.cops_world.specs.ExampleLives.{is_lack_reply, one_tenant, told_in_two_lives, two_lives};
ghost use Rattle.cops_world.specs.HostRuns.{IsWithinLimits, TellsLives};

/// Theorem: `run_lives` takes the events of `two_lives` in the configuration `one_tenant`. Its replies
/// are `told_in_two_lives`, unless one is that memory ran out.
pub fn second_life_finds_nothing_of_the_first()
    ensures good { IsTrue (is_good one_tenant) }
    ensures within { AllByRecursion IsWithinLimits two_lives }
    ensures told { (replies : List LifeReply) → TellsLives one_tenant two_lives replies →
        IsFalse (list_any is_lack_reply replies) → replies ≡ told_in_two_lives }
{}
