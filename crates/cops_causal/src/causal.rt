ghost use Rattle.std.specs.Prelude.{◌≡◌, ◌<◌, ◌∷◌, ◌++◌, List, None, length};
ghost use Rattle.cops_types.specs.declared.faults.Fault.TheVariants.{OutOfMemory};
ghost use Rattle.cops_types.specs.TenantConfig.{TenantConfig};
ghost use Rattle.cops_model.specs.declared.acts.Act.{Act};
ghost use Rattle.cops_model.specs.declared.replies.Reply.{Reply};
ghost use Rattle.cops_model.specs.declared.replies.Reply.TheVariants.{Refused};
ghost use Rattle.cops_model.specs.Causal.{stepped_actor};
ghost use Rattle.cops_model.specs.Cluster.{SoloCluster, new_cluster};
ghost use Rattle.cops_model.specs.Events.{IsFrontOf, IsSpared, before_lack, cluster_of, solo_replies};
ghost use Rattle.cops_model.specs.Goes.{Goes};
ghost use Rattle.cops_model.specs.Laws.{AllAreCausal, IsCausal};
ghost use Rattle.cops_model.specs.Precedence.{AreLeastPasts};
ghost use Rattle.cops_model.specs.Told.{operations_told};
ghost use Rattle.cops_causal.specs.ClientLaws.{AreOfPuts, HaveDistinctVersions, KeepsClientLaws, ShowsTrueLists};
ghost use Rattle.cops_causal.specs.Transcript.{Ended, operations_in, transcript};
ghost use Rattle.cops_causal.specs.Views.{ShowsPasts};

/// Every run of a tenant alone keeps the causal laws, however often memory runs out in it.
pub fn every_run_is_causal()
    ensures { (config : TenantConfig) → 0 < config.shards → AllAreCausal config }
{}

/// With ample memory a tenant's own cluster gives such a run, so its replies keep the causal laws.
pub fn ample_memory_is_a_run()
    ensures goes { (config : TenantConfig) (acts : List Act) →
        Goes config acts (solo_replies config acts) (new_cluster config) (cluster_of config acts) }
    ensures causal { (config : TenantConfig) (acts : List Act) → 0 < config.shards →
        IsCausal config acts (solo_replies config acts) (cluster_of config acts) }
{}

/// In the definition memory is always ample: no reply of it is out of memory.
pub fn a_cluster_alone_has_ample_memory()
    ensures { (config : TenantConfig) (acts : List Act) → 0 < config.shards →
        IsSpared (solo_replies config acts) }
{}

/// A run without an out-of-memory reply has the replies of a cluster of one's own, and leaves that
/// cluster. Any run has those replies up to its first out-of-memory reply.
pub fn runs_tell_what_a_cluster_alone_tells()
    ensures whole { (config : TenantConfig) (acts : List Act) (told : List Reply)
        (left : SoloCluster) → Goes config acts told (new_cluster config) left →
        IsSpared told → (told ≡ solo_replies config acts) × (left ≡ cluster_of config acts) }
    ensures at_first { (config : TenantConfig) (acts : List Act) (told : List Reply)
        (left : SoloCluster) → Goes config acts told (new_cluster config) left →
        IsFrontOf (before_lack told) (solo_replies config acts) }
{}

/// An out-of-memory reply to an act that takes no step is a stutter: the other acts, with their
/// replies, are a run without it.
pub fn stutters_leave_a_run()
    ensures { (config : TenantConfig) (acts later : List Act) (told more : List Reply) (act : Act)
        (left : SoloCluster) → length told ≡ length acts → stepped_actor act ≡ None →
        Goes config (acts ++ act ∷ later) (told ++ Refused OutOfMemory ∷ more)
        (new_cluster config) left →
        Goes config (acts ++ later) (told ++ more) (new_cluster config) left }
{}

/// A tenant's acts and replies keep the laws that it can check itself: each value that it read is
/// the value of an earlier put, versions are distinct and above their pasts, answers are consistent,
/// shown lists are exact, and what a data centre has shown can be read there with its past.
pub fn every_transcript_is_causal()
    ensures of_a_run { (config : TenantConfig) (acts : List Act) (told : List Reply)
        (left : SoloCluster) → 0 < config.shards → Goes config acts told (new_cluster config) left →
        KeepsClientLaws (transcript acts told) }
    ensures shown { (config : TenantConfig) (acts : List Act) (told : List Reply)
        (left : SoloCluster) → 0 < config.shards → Goes config acts told (new_cluster config) left →
        ShowsTrueLists acts told }
    ensures pasts { (config : TenantConfig) (acts : List Act) (told : List Reply)
        (left : SoloCluster) → 0 < config.shards → Goes config acts told (new_cluster config) left →
        ShowsPasts acts told }
    ensures operations { (acts : List Act) (told : List Reply) →
        operations_in (transcript acts told) ≡ operations_told acts told }
{}

/// If each value that was read is of an earlier put, and no two puts have one version, then the
/// pasts follow the least relation. So no transcript breaks that law alone.
pub fn values_and_versions_fix_pasts()
    ensures { (es : List Ended) → AreOfPuts es → HaveDistinctVersions (operations_in es) →
        AreLeastPasts (operations_in es) }
{}
