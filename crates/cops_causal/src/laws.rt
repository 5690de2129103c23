ghost use Rattle.std.specs.Prelude.{◌≡◌, ◌<◌, ℕ, List, length};
ghost use Rattle.std.specs.List.{AllByRecursion};
ghost use Rattle.cops_types.specs.declared.configs.Config.{Config};
ghost use Rattle.cops_types.specs.TenantConfig.{TenantConfig};
ghost use Rattle.cops_model.specs.declared.acts.Act.{Act};
ghost use Rattle.cops_model.specs.declared.acts.Event.{Event};
ghost use Rattle.cops_model.specs.declared.replies.Reply.{Reply};
ghost use Rattle.cops_model.specs.Cluster.{SoloCluster, new_cluster};
ghost use Rattle.cops_model.specs.Events.{IsSpared, config_at, new_clusters, own, replies, solo_replies, world_replies};
ghost use Rattle.cops_model.specs.Goes.{Goes};
ghost use Rattle.cops_model.specs.ListLimits.{HasFewInAudit};
ghost use Rattle.cops_model.specs.MainTheorem.{MainTheorem};
ghost use Rattle.cops_causal.specs.ClientLaws.{KeepsClientLaws, ShowsTrueLists};
ghost use Rattle.cops_causal.specs.Transcript.{transcript};
ghost use Rattle.cops_causal.specs.Views.{ShowsPasts};

/// Theorem: in every interleaving of all tenants' events each tenant gets the replies of a cluster
/// of its own; so its replies depend on its own events alone.
pub fn each_tenant_is_alone()
    ensures alone { (configs : ℕ → TenantConfig) (slot : ℕ) (events : List Event) →
        replies slot events (world_replies configs events (new_clusters configs))
        ≡ solo_replies (configs slot) (own slot events) }
    ensures agree { (configs others : ℕ → TenantConfig) (slot place : ℕ)
        (events more : List Event) →
        configs slot ≡ others place → own slot events ≡ own place more →
        replies slot events (world_replies configs events (new_clusters configs))
        ≡ replies place more (world_replies others more (new_clusters others)) }
{}

/// Theorem: by the main theorem, a tenant without an out-of-memory reply gets the replies of a
/// cluster of its own, and the same ones in any other run with the same own events and
/// configuration.
pub fn tenants_with_memory_are_alone()
    ensures alone { (config : Config) (events : List Event) (told : List Reply) (slot : ℕ) →
        MainTheorem config events told → slot < length config.tenants →
        IsSpared (replies slot events told) →
        replies slot events told ≡ solo_replies (config_at config slot) (own slot events) }
    ensures agree { (config other : Config) (events more : List Event) (told heard : List Reply)
        (slot place : ℕ) →
        MainTheorem config events told → MainTheorem other more heard →
        slot < length config.tenants → place < length other.tenants →
        config_at config slot ≡ config_at other place → own slot events ≡ own place more →
        IsSpared (replies slot events told) → IsSpared (replies place more heard) →
        replies slot events told ≡ replies place more heard }
{}

/// Theorem: in a cluster of a tenant's own, the lists in its nodes' audits are within its limit of
/// lists, however often memory runs out.
pub fn audited_lists_are_within_the_limit()
    ensures { (config : TenantConfig) (acts : List Act) (told : List Reply) (left : SoloCluster) →
        0 < config.shards →
        Goes config acts told (new_cluster config) left →
        AllByRecursion (HasFewInAudit config) left.nodes }
{}

/// Theorem: by the main theorem, each tenant's acts and replies keep the laws that it can check itself.
pub fn tenants_transcripts_are_causal()
    ensures { (config : Config) (events : List Event) (told : List Reply) (slot : ℕ) →
        MainTheorem config events told → slot < length config.tenants →
        0 < (config_at config slot).shards →
        KeepsClientLaws (transcript (own slot events) (replies slot events told))
        × ShowsTrueLists (own slot events) (replies slot events told)
        × ShowsPasts (own slot events) (replies slot events told) }
{}
