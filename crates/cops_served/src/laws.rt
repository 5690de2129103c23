ghost use Rattle.std.specs.Prelude.{◌≡◌, ◌++◌, ℕ, Bool, true, List, Option};
ghost use Rattle.cops_types.specs.declared.configs.Config.{Config};
ghost use Rattle.cops_types.specs.TenantConfig.{TenantConfig, tenant_config};
ghost use Rattle.cops_model.specs.Carrier.{Stream, new_carrier};
ghost use Rattle.cops_model.specs.Cluster.{has_stream};
ghost use Rattle.cops_model.specs.declared.calls.NodeCall.TheVariants.{Collect};
ghost use Rattle.cops_model.specs.declared.calls.NodeId.{NodeId};
ghost use Rattle.cops_model.specs.declared.calls.NodeReply.{NodeReply};
ghost use Rattle.cops_history.specs.Turns.{Turn};
ghost use Rattle.cops_repl.specs.Stands.{CarrierStandsFor, KeptCarrier};
ghost use Rattle.cops_wire.specs.Conversation.{ConversesInPart, HasConversed};
ghost use Rattle.cops_wire.specs.Requests.{KeepsShape};
ghost use Rattle.cops_wire.specs.declared.serving.Ended.{Ended};
ghost use Rattle.cops_served.specs.Carriers.{Carries, IsCarriedBy, IsCollectedBy};
ghost use Rattle.cops_served.specs.Conversations.{AreRecorded, IsConversationOf, MakesTurns, Records};

use cops_node::Nodes;
use cops_wire::Moments;

/// Theorem: on a connection that `Connection::converse` served, the session's commands behave as defined. They are the
/// client's requests, their turns are the calls at the nodes, and their replies are the messages to the client.
///
/// Memory may be refused at any place. `part` says the same of a connection that failed.
pub fn conversations_behave<N: Nodes, M: Moments>()
    ensures whole { (config : Config)
        (remaining new_remaining contents new_contents : Option (List ℕ)) (nodes new_nodes : N)
        (moments new_moments : M) (ended : Ended) →
        (h : HasConversed (KeepsShape N.shape N.Answers) M.Gives config remaining new_remaining
        contents new_contents nodes new_nodes moments new_moments ended) →
        IsConversationOf (KeepsShape N.shape N.Answers) (tenant_config config h.tenant) h.slot h.dc
        nodes new_nodes h.serves.requests h.serves.replies }
    ensures part { (config : Config) (remaining contents new_contents : Option (List ℕ))
        (nodes new_nodes : N) (moments new_moments : M) →
        (h : ConversesInPart (KeepsShape N.shape N.Answers) M.Gives config remaining contents
        new_contents nodes new_nodes moments new_moments) →
        IsConversationOf (KeepsShape N.shape N.Answers) (tenant_config config h.tenant) h.slot h.dc
        nodes new_nodes h.serves.requests h.serves.replies }
{}

/// Theorem: the steps of a carrier, from its first one, are commands that behave as defined, and their turns are
/// the calls at the nodes.
pub fn carriers_behave<N: Nodes>()
    ensures { (config : TenantConfig) (slot : ℕ) (stream : Stream) (kept : KeptCarrier) (steps : ℕ)
        (after : KeptCarrier) (nodes new_nodes : N) →
        has_stream config stream.origin.dc stream.origin.shard stream.to_dc ≡ true →
        CarrierStandsFor config.shards kept (new_carrier stream) →
        Carries (KeepsShape N.shape N.Answers) slot steps kept nodes after new_nodes →
        IsCarriedBy (KeepsShape N.shape N.Answers) config slot stream nodes new_nodes }
{}

/// Theorem: a collection is a command by itself.
pub fn collections_behave<N: Nodes>()
    ensures { (config : TenantConfig) (id : NodeId) (slot moment : ℕ) (reply : NodeReply)
        (nodes new_nodes : N) →
        KeepsShape N.shape N.Answers nodes id slot moment Collect reply new_nodes →
        IsCollectedBy (KeepsShape N.shape N.Answers) config slot nodes new_nodes }
{}

/// Theorem: what records each call for a tenant then has these turns more.
pub fn calls_are_recorded<N: Nodes>()
    ensures { (lost : NodeReply → Bool) (slot : ℕ) (holds : N → Bool) (made : N → List Turn)
        (turns : List Turn) (nodes new_nodes : N) →
        Records lost (KeepsShape N.shape N.Answers) slot (λ n. holds n ≡ true) made →
        holds nodes ≡ true → AreRecorded lost turns →
        MakesTurns (KeepsShape N.shape N.Answers) slot nodes turns new_nodes →
        made new_nodes ≡ made nodes ++ turns }
{}
