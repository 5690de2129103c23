ghost use Rattle.std.specs.Prelude.{◌≡◌, ◌≢◌, ℕ, ◌<◌, ◌*◌, ◌++◌, ◌∷◌, [], Bool, true, List, Some, None, slice_get};
ghost use Rattle.std.specs.List.{AllByRecursion, flat_map};
ghost use Rattle.cops_types.specs.declared.configs.Config.{Config};
ghost use Rattle.cops_types.specs.declared.configs.Tenant.{Tenant};
ghost use Rattle.cops_types.specs.TenantConfig.{tenant_config};
ghost use Rattle.cops_gate.specs.Seats.{Origin};
ghost use Rattle.cops_model.specs.Carrier.{Stream};
ghost use Rattle.cops_model.specs.Cluster.{has_stream};
ghost use Rattle.cops_model.specs.declared.calls.NodeCall.TheVariants.{Collect};
ghost use Rattle.cops_model.specs.declared.calls.NodeId.{NodeId};
ghost use Rattle.cops_model.specs.declared.calls.NodeReply.{NodeReply};
ghost use Rattle.cops_node.specs.Clusters.{new_shared};
ghost use Rattle.cops_node.specs.Hosting.{Hosted};
ghost use Rattle.cops_node.specs.Parts.{Shared};
ghost use Rattle.cops_wire.specs.Requests.{KeepsShape};
ghost use Rattle.cops_history.specs.Turns.{IsLegalAtEach, all_new, node_numbered};
ghost use Rattle.cops_history.specs.History.{Behaves, Done, Told, AreActs, all_done, seat_in, turns};
ghost use Rattle.cops_history.specs.Lives.{IsTimeOf, LivesCausally, SlotTurn};
ghost use Rattle.cops_model.specs.declared.deliveries.Delivery.{Delivery};
ghost use Rattle.cops_service.specs.Carried.{Delivers};
ghost use Rattle.cops_service.specs.Connections.{IsDesk};
ghost use Rattle.cops_service.specs.Conversing.{ConverseAll};
ghost use Rattle.cops_service.specs.Crews.{AreServedBy};
ghost use Rattle.cops_service.specs.Desks.{IsDeskCall, NodeSeat};
ghost use Rattle.cops_service.specs.Gates.{Gates};
ghost use Rattle.cops_service.specs.Hosted.{HostedLog};
ghost use Rattle.cops_service.specs.LifeCrews.{AreServedInLives};
ghost use Rattle.cops_service.specs.Rosters.{Roster};
ghost use Rattle.cops_service.specs.Slots.{NodeLog};
ghost use Rattle.cops_whole.specs.Threads.{AreCallsOfActors};
ghost use Rattle.cops_whole.specs.LivesRuns.{Deed, IsLivesRun, IsLogOfLives, commands_in_life};
ghost use Rattle.cops_whole.specs.NoOps.{IsLogOfGates};
ghost use Rattle.cops_whole.specs.Seats.{AddsTurns, AllRecorded, IsServedCluster, MakesAll, SlotActor, own_commands, turns_by_actor};
ghost use Rattle.cops_whole.specs.ServedBy.{AreServedByActors};
ghost use Rattle.cops_whole.specs.ServedLives.{AreServedByDeeds};
ghost use Rattle.cops_whole.specs.Services.{IsCallAtShard, IsCrewRun, IsLogOfService, IsServiceRun, IsTenantOfService, SeatActors, did_by, past_numbers};
ghost use Rattle.cops_whole.specs.SmallCluster.{small_actors, small_config, small_log};
ghost use Rattle.cops_whole.specs.SmallService.{lacking_actors, lacking_history, small_gates, small_history};
ghost use Rattle.cops_whole.specs.Whole.{CallEntry, WholeTurn, AreServedForTenant, IsWholeLog, LeadsOn, Represents, entries_at, own_log, own_turns, place_there, seat_turns, tenant_turn, whole_turn};

use cops_node::Nodes;
use cops_wire::Moments;

/// Theorem: a tenant's own part of one log is legal at each node of a cluster that the tenant has to itself.
/// Turns of other tenants and no-op turns don't matter.
pub fn whole_logs_are_legal()
    ensures { (config : Config) (tenant : Tenant) (slot : ℕ) (log : List WholeTurn) →
        0 < config.shards → slice_get config.tenants slot ≡ Some tenant → IsWholeLog config log →
        IsLegalAtEach (tenant_config config tenant) (all_new (tenant_config config tenant))
        (turns (own_log config slot log)) }
{}

/// Theorem: the commands of a tenant's seats are a list of acts of a cluster that the tenant has to itself, with
/// the same replies, and it keeps the causal laws, whatever other tenants do.
pub fn tenants_are_served_causally()
    ensures { (config : Config) (tenant : Tenant) (slot : ℕ) (log : List WholeTurn) (seats : ℕ)
        (did : ℕ → List (List Told)) → 0 < config.shards →
        slice_get config.tenants slot ≡ Some tenant →
        IsWholeLog config log → AreServedForTenant config tenant slot log seats did →
        AreActs (tenant_config config tenant) (own_log config slot log) seat_in (all_done did) }
{}

/// Theorem: a node that the log leaves represents, for the tenant, the node that these acts leave.
pub fn nodes_are_left_by_acts()
    ensures { (config : Config) (tenant : Tenant) (slot : ℕ) (log : List WholeTurn)
        (owner : List ℕ → ℕ) (did : ℕ → List Done) (number : ℕ) (left : Shared) →
        0 < config.shards → slice_get config.tenants slot ≡ Some tenant →
        IsWholeLog config log →
        (acts : AreActs (tenant_config config tenant) (own_log config slot log) owner did) →
        number < config.data_centres * config.shards →
        LeadsOn (new_shared config number) (entries_at number log) left →
        Represents slot (place_there config tenant number)
        (node_numbered (tenant_config config tenant) number acts.run.left.nodes) left }
{}

/// Theorem: if a seat's own turns grow by one call, then its turns for the tenant of the call do. A no-op turn and
/// a call of another tenant leave them.
pub fn seats_record_their_turns()
    ensures call { (config : Config) (slot seat node : ℕ) (e : CallEntry)
        (before after : List WholeTurn) → e.slot ≡ slot →
        seat_turns seat after ≡ seat_turns seat before ++ whole_turn seat node (Some e) ∷ [] →
        own_turns config slot seat after
        ≡ own_turns config slot seat before ++ tenant_turn config node e ∷ [] }
    ensures none { (config : Config) (slot seat node : ℕ) (before after : List WholeTurn) →
        seat_turns seat after ≡ seat_turns seat before ++ whole_turn seat node None ∷ [] →
        own_turns config slot seat after ≡ own_turns config slot seat before }
    ensures other { (config : Config) (slot seat node : ℕ) (e : CallEntry)
        (before after : List WholeTurn) → e.slot ≢ slot →
        seat_turns seat after ≡ seat_turns seat before ++ whole_turn seat node (Some e) ∷ [] →
        own_turns config slot seat after ≡ own_turns config slot seat before }
{}

/// Theorem: a prefix of a whole log is one.
pub fn prefixes_are_whole()
    ensures { (config : Config) (prefix later : List WholeTurn) →
        IsWholeLog config (prefix ++ later) → IsWholeLog config prefix }
{}

/// Theorem: in a cluster that seats serve for all tenants, with one log, each tenant's replies are those of acts in
/// a cluster of its own, and they keep the causal laws. `nodes_are_left_by_acts` says so of the nodes.
pub fn clusters_are_served_causally()
    ensures { (config : Config) (slot : ℕ) (tenant : Tenant) (log : List WholeTurn) (seats : ℕ)
        (actors : ℕ → List SlotActor) → 0 < config.shards →
        slice_get config.tenants slot ≡ Some tenant → IsServedCluster config log seats actors →
        AreActs (tenant_config config tenant) (own_log config slot log) seat_in
        (all_done (λ seat. own_commands slot (actors seat))) }
{}

/// Theorem: a small cluster meets the premises: a put for one tenant, and a collection for another.
pub fn small_cluster_is_served()
    ensures { IsServedCluster small_config small_log 2 small_actors }
{}

/// Theorem: if each call at a seat's nodes adds its turn, then the calls of the seat's actors add theirs.
pub fn seats_make_their_turns<N: Nodes>()
    ensures { (lost : NodeReply → Bool) (config : Config) (seat : ℕ) (holds : N → Bool)
        (seen : N → List WholeTurn) (actors : List SlotActor) (nodes new_nodes : N) →
        AddsTurns lost (KeepsShape N.shape N.Answers) config seat (λ n. holds n ≡ true) seen →
        holds nodes ≡ true → AllRecorded lost actors →
        MakesAll (KeepsShape N.shape N.Answers) nodes actors new_nodes →
        seen new_nodes ≡ seen nodes ++ flat_map (turns_by_actor config seat) actors }
{}

/// Theorem: what the contracts of a service's threads ensure makes all their calls those of actors that behave:
/// the connections of a worker, a delivery of a carrier, a collection, and one after another.
pub fn threads_make_calls_of_actors<N: Nodes, M: Moments>()
    ensures workers { (config : Config) (count : ℕ) (nodes new_nodes : N)
        (moments new_moments : M) →
        ConverseAll (KeepsShape N.shape N.Answers) M.Gives config count nodes new_nodes
        moments new_moments →
        AreCallsOfActors (KeepsShape N.shape N.Answers) config nodes new_nodes }
    ensures carriers { (config : Config) (tenant : Tenant) (slot : ℕ) (stream : Stream)
        (ending : Delivery) (nodes new_nodes : N) → slice_get config.tenants slot ≡ Some tenant →
        has_stream (tenant_config config tenant) stream.origin.dc stream.origin.shard stream.to_dc
        ≡ true →
        Delivers N.Answers config.shards slot stream nodes new_nodes ending →
        AreCallsOfActors N.Answers config nodes new_nodes }
    ensures collectors { (config : Config) (tenant : Tenant) (slot moment : ℕ) (id : NodeId)
        (reply : NodeReply) (nodes new_nodes : N) → slice_get config.tenants slot ≡ Some tenant →
        N.Answers nodes id slot moment Collect reply new_nodes →
        AreCallsOfActors N.Answers config nodes new_nodes }
    ensures later { (config : Config) (nodes between new_nodes : N) →
        AreCallsOfActors N.Answers config nodes between →
        AreCallsOfActors N.Answers config between new_nodes →
        AreCallsOfActors N.Answers config nodes new_nodes }
{}

/// Theorem: a log is whole if gates keep a no-op turn for each call that was refused memory, and the node might
/// lack memory there.
pub fn logs_of_gates_are_whole()
    ensures { (config : Config) (log : List WholeTurn) → IsLogOfGates config log →
        IsWholeLog config log }
{}

/// Theorem: the calls that actors make at a desk are those of the desk's seat.
pub fn actors_call_by_seats<N: Nodes>()
    ensures { (cluster : N → Gates Shared) (seat : N → NodeSeat) (config : Config)
        (nodes new_nodes : N) → IsDesk (KeepsShape N.shape N.Answers) cluster seat →
        AreCallsOfActors (KeepsShape N.shape N.Answers) config nodes new_nodes →
        AreCallsOfActors (IsDeskCall (cluster nodes)) config (seat nodes) (seat new_nodes) }
{}

/// Theorem: what each thread of a service does with its seat are calls of actors that behave, at shards that exist: the
/// conversations of a worker, a delivery of a carrier, a collection, and one after another.
pub fn seats_make_calls_of_actors<M: Moments>()
    ensures workers { (config : Config) (cluster : Gates Shared) (count : ℕ) (first last : NodeSeat)
        (moments later : M) → 0 < config.shards →
        ConverseAll (IsDeskCall cluster) M.Gives config count first last moments later →
        AreCallsOfActors (IsCallAtShard config cluster) config first last }
    ensures carriers { (config : Config) (cluster : Gates Shared) (tenant : Tenant) (slot : ℕ)
        (stream : Stream) (ending : Delivery) (first last : NodeSeat) →
        slice_get config.tenants slot ≡ Some tenant →
        has_stream (tenant_config config tenant) stream.origin.dc stream.origin.shard stream.to_dc
        ≡ true →
        Delivers (IsDeskCall cluster) config.shards slot stream first last ending →
        AreCallsOfActors (IsCallAtShard config cluster) config first last }
    ensures collectors { (config : Config) (cluster : Gates Shared) (tenant : Tenant)
        (slot moment : ℕ) (id : NodeId) (reply : NodeReply) (first last : NodeSeat) →
        slice_get config.tenants slot ≡ Some tenant →
        id.shard < config.shards → IsDeskCall cluster first id slot moment Collect reply last →
        AreCallsOfActors (IsCallAtShard config cluster) config first last }
    ensures later { (config : Config) (cluster : Gates Shared) (first between last : NodeSeat) →
        AreCallsOfActors (IsCallAtShard config cluster) config first between →
        AreCallsOfActors (IsCallAtShard config cluster) config between last →
        AreCallsOfActors (IsCallAtShard config cluster) config first last }
{}

/// Theorem: a service that ran is a cluster that its seats served. Its log has each call with its reply. If memory
/// was refused, the gate's history has a no-op turn.
pub fn services_are_served_clusters()
    ensures { (config : Config) (cluster : Gates Shared) (history : NodeLog) (seats : ℕ)
        (actors : ℕ → List SlotActor) → IsServiceRun config cluster history seats actors →
        (log : List WholeTurn) × IsLogOfService config history seats actors log }
{}

/// Theorem: so one log serves all tenants of a service causally: each tenant's commands are acts of a cluster that the
/// tenant has to itself, and the nodes that the history leaves represent what these acts leave.
pub fn tenants_of_services_are_served_causally()
    ensures { (config : Config) (cluster : Gates Shared) (history : NodeLog) (seats : ℕ)
        (actors : ℕ → List SlotActor) → 0 < config.shards →
        IsServiceRun config cluster history seats actors →
        (log : List WholeTurn) × IsLogOfService config history seats actors log
        × ((slot : ℕ) (tenant : Tenant) → slice_get config.tenants slot ≡ Some tenant →
        IsTenantOfService config tenant slot history actors log) }
{}

/// Theorem: seats that threads gave back make a service, if no other seat made a turn.
pub fn crews_run_services()
    ensures { (config : Config) (cluster : Gates Shared) (history : NodeLog)
        (crew : List SeatActors) → IsCrewRun config cluster history crew →
        IsServiceRun config cluster history (past_numbers crew) (did_by crew) }
{}

/// Theorem: a service that ran the small cluster meets the premises, also if a call was refused memory.
pub fn small_service_ran()
    ensures all { (gate : Origin Shared) →
        IsServiceRun small_config (small_gates gate) small_history 2 small_actors }
    ensures lacking { (gate : Origin Shared) →
        IsServiceRun small_config (small_gates gate) lacking_history 2 lacking_actors }
{}

/// Theorem: the calls of the seats that a service's threads gave back are those of actors. Those of a worker are the sessions of
/// its clients' conversations: their commands are the clients' requests, their replies those that the clients got. If fewer than
/// 2^62 turns were made at each node, one log serves all tenants causally, and the nodes that are left represent what their
/// acts leave.
pub fn threads_serve_causally<M: Moments>()
    ensures { (config : Config) (workers : ℕ) (moments : M) (nodes : List Shared)
        (served : AreServedBy M.Gives moments config workers nodes) → 0 < config.shards →
        AreServedByActors M.Gives moments config workers nodes served }
{}

/// Theorem: a service whose tenants come and go, that ran, is one log of all calls, those of the host among them. In each life of a
/// slot, the turns of each seat are those of its actors' commands. If memory was refused, the gate's history has a no-op turn.
pub fn services_are_logs_of_lives()
    ensures { (config : Config) (states : List Hosted) (history : HostedLog) (seats : ℕ)
        (deeds : ℕ → List Deed) → IsLivesRun config states history seats deeds →
        (log : List SlotTurn) × IsLogOfLives config history deeds log }
{}

/// Theorem: each life in it is served causally, if its actors behave as those of its tenant. Until a call of the life gets
/// `UnknownTenant`, the actors' commands are acts of a cluster that the tenant has to itself, with the causal laws.
pub fn lives_of_services_are_served_causally()
    ensures { (config : Config) (states : List Hosted) (history : HostedLog) (seats : ℕ)
        (deeds : ℕ → List Deed) (log prefix : List SlotTurn) (tenant : Tenant) (slot life : ℕ) →
        0 < config.shards →
        IsLivesRun config states history seats deeds → IsLogOfLives config history deeds log →
        IsTimeOf config tenant slot life prefix log →
        ((seat : ℕ) → AllByRecursion (Behaves (tenant_config config tenant) None)
        (commands_in_life slot life (deeds seat))) →
        LivesCausally config tenant slot life prefix
        (λ seat. commands_in_life slot life (deeds seat)) }
{}

/// Theorem: what the threads of a service did whose tenants come and go are the sessions of its clients' conversations, carriers
/// and collections, each in a life, and the host's admissions and closes. If fewer than 2^62 turns were made at each node, one log
/// serves each life causally until one of its calls gets `UnknownTenant`: each life of the configuration's tenants, and each that
/// a line of the host began. A node that has the life in the end holds what its acts leave.
///
/// `who` is the tenant of each life. Clients that were served in a life were greeted as its tenant.
pub fn lives_serve_causally<M: Moments>()
    ensures { (config : Config) (workers : ℕ) (moments : M) (nodes : List Shared)
        (open_tenants : Roster) (who : ℕ → ℕ → Tenant)
        (served : AreServedInLives M.Gives moments config workers nodes open_tenants) →
        0 < config.shards →
        AreServedByDeeds M.Gives moments who config workers nodes open_tenants served }
{}
