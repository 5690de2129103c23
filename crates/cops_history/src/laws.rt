ghost use Rattle.std.specs.Prelude.{◌≡◌, ℕ, ◌*◌, ◌<◌, ◌++◌, ◌∷◌, List, Option, None, Some};
ghost use Rattle.std.specs.List.{AllByRecursion, flat_map};
ghost use Rattle.cops_types.specs.declared.configs.Config.{Config};
ghost use Rattle.cops_types.specs.declared.configs.Tenant.{Tenant};
ghost use Rattle.cops_types.specs.TenantConfig.{TenantConfig, tenant_config};
ghost use Rattle.cops_node.specs.declared.hosted.SlotCall.TheVariants.{Close};
ghost use Rattle.cops_node.specs.declared.hosted.SlotReply.{SlotReply};
ghost use Rattle.cops_node.specs.Hosting.{Held, Hosted, slot_holds};
ghost use Rattle.cops_history.specs.History.{Behaves, Logged, Told, Done, IsHistory, IsHistoryOfPrefixes, IsServed, AreActs, AreActsOfDefinition, HaveAmpleMemory, HasPrefixesOfActs, all_done, seat_in, turns, turns_by};
ghost use Rattle.cops_history.specs.Commands.{turn_made_by};
ghost use Rattle.cops_history.specs.Example.{config, did, log};
ghost use Rattle.cops_history.specs.Exchanged.{actors_at, history_at, logged_at, two_shards};
ghost use Rattle.cops_history.specs.LifeExample.{life_did, open_time, some_tenant, vacant, whole_log};
ghost use Rattle.cops_history.specs.Lives.{SlotEntry, SlotTurn, AreServedInLife, IsHostedLog, IsTimeOf, IsUnknown, LeadsOnSlots, LivesCausally, NeverAsksFor, slot_entries_at, held_there, life_log, new_hosted, slot_entry};
ghost use Rattle.cops_history.specs.Turns.{IsLegal, IsLegalAtEach, all_new, left_of, node_numbered, nodes_left, turns_at};

/// Theorem: a log that is legal at each node, in which each seat's turns are those of its actors' commands, is a
/// list of acts. It leaves the same nodes and gives each actor the same replies, so the causal laws hold of it.
/// Memory may be refused to any call, and to the values of any transaction.
pub fn logs_are_acts()
    ensures { (config : TenantConfig) (log : List Logged) (seats : ℕ) (owner : List ℕ → ℕ)
        (did : ℕ → List Done) → 0 < config.shards → IsHistory config log seats owner did →
        AreActs config log owner did }
{}

/// Theorem: the same if the actors of each seat follow one another.
pub fn served_are_acts()
    ensures { (config : TenantConfig) (log : List Logged) (seats : ℕ) (did : ℕ → List (List Told)) →
        0 < config.shards → IsServed config log seats did →
        AreActs config log seat_in (all_done did) }
{}

/// Theorem: if no reply says that memory was refused, the replies and nodes are those of the definition.
pub fn acts_with_memory_are_of_the_definition()
    ensures { (config : TenantConfig) (log : List Logged) (owner : List ℕ → ℕ)
        (did : ℕ → List Done) → (acts : AreActs config log owner did) → HaveAmpleMemory acts.order →
        AreActsOfDefinition config log acts.order acts.room }
{}

/// Theorem: a legal log leaves each node as the turns at that node leave it.
pub fn nodes_are_left_by_their_turns()
    ensures { (config : TenantConfig) (log : List Logged) (number : ℕ) →
        IsLegalAtEach config (all_new config) (turns log) →
        node_numbered config number (nodes_left config (turns log) (all_new config))
        ≡ left_of config (node_numbered config number (all_new config))
        (turns_at config number (turns log)) }
{}

/// Theorem: a small log meets the premises: a put, a carrier to another data centre, a get there, a collection.
pub fn example_is_served()
    ensures { IsServed config log 3 did }
{}

/// Theorem: a prefix of a log is a list of acts if each seat's commands account for its turns there.
pub fn prefixes_are_acts()
    ensures { (config : TenantConfig) (log : List Logged) (seats : ℕ) (owner : List ℕ → ℕ)
        (did : ℕ → List Done) → 0 < config.shards → IsHistoryOfPrefixes config log seats owner did →
        HasPrefixesOfActs config log owner did }
{}

/// Theorem: a legal history for each node isn't enough. Here each history is legal and each actor behaves, but
/// no log has them all: a reader sees `y`, which depends on `x`, and then no `x`.
pub fn legal_histories_may_have_no_log()
    ensures legal { (number : ℕ) → IsLegal two_shards
        (node_numbered two_shards number (all_new two_shards)) (turns (history_at number)) }
    ensures behave { (seat : ℕ) → AllByRecursion (Behaves two_shards None) (actors_at seat) }
    ensures none { (log : List Logged) → ((number : ℕ) → logged_at number log ≡ history_at number) →
        ((seat : ℕ) → flat_map (flat_map (λ t. turn_made_by t.command)) (actors_at seat)
        ≡ turns_by seat log) → ⊥ }
{}

/// Theorem: if tenants come and go, then each life of a tenant is served causally: until a call of it gets `UnknownTenant`, the
/// commands of its actors are a list of acts of a cluster that the tenant has to itself, with the same replies. They keep the causal
/// laws, whoever has the slot before and after, and whatever calls of other lives come.
pub fn lives_are_acts()
    ensures { (config : Config) (tenant : Tenant) (slot life : ℕ) (log prefix : List SlotTurn)
        (seats : ℕ) (did : ℕ → List (List Told)) → 0 < config.shards → IsHostedLog config log →
        IsTimeOf config tenant slot life prefix log →
        AreServedInLife (tenant_config config tenant)
        (life_log config.shards slot life log) seats did →
        LivesCausally config tenant slot life prefix did }
{}

/// Theorem: a node that has the life then holds, in its slot, what these acts leave there.
pub fn nodes_hold_what_lives_leave()
    ensures { (config : Config) (tenant : Tenant) (slot life : ℕ) (log prefix : List SlotTurn)
        (did : ℕ → List (List Told)) (number : ℕ) (left : Hosted) (held : Held) →
        0 < config.shards → IsHostedLog config log → IsTimeOf config tenant slot life prefix log →
        (lives : LivesCausally config tenant slot life prefix did) →
        number < config.data_centres * config.shards →
        LeadsOnSlots (new_hosted config number) (slot_entries_at number prefix) left →
        slot_holds slot left ≡ Some held → held.life ≡ life →
        held ≡ held_there config tenant life number
        (node_numbered (tenant_config config tenant) number lives.acts.run.left.nodes) }
{}

/// Theorem: after a close at a node, each call of an earlier life of the slot gets `UnknownTenant` there. So a life's acts may go on at
/// other nodes while it is closed at one node after another, and end with the first call that comes too late.
pub fn ended_lives_are_unknown()
    ensures { (config : Config) (slot life number moment : ℕ) (reply : SlotReply)
        (earlier later : List (Option SlotEntry)) (left : Hosted) → 0 < config.shards →
        number < config.data_centres * config.shards → NeverAsksFor slot life later →
        LeadsOnSlots (new_hosted config number)
        (earlier ++ Some (slot_entry slot moment Close reply) ∷ later) left →
        AllByRecursion (λ (e : Option SlotEntry). IsUnknown slot life e) later }
{}

/// Theorem: a small log meets the premises: a tenant is admitted, puts a value, and is closed; a late call of its life is refused, and
/// another tenant gets the slot.
pub fn small_life_is_served()
    ensures log { IsHostedLog vacant whole_log }
    ensures time { IsTimeOf vacant (some_tenant 1) 0 1 open_time whole_log }
    ensures actors { AreServedInLife (tenant_config vacant (some_tenant 1))
        (life_log 1 0 1 whole_log) 3 life_did }
{}
