//! The actors of tenants: sessions and carriers.
ghost use Rattle.std.specs.Prelude.{◌≡◌, ◌<◌, ◌⊎◌, ℕ, true, false, IfOk, IsTrue, Ok, OnErr};
ghost use Rattle.cops_types.specs.TenantConfig.{TenantConfig};
ghost use Rattle.cops_node.specs.declared.Shape.{Shape};
ghost use Rattle.cops_model.specs.Session.{Session as SoloSession, get_refusal, session_put_refusal};
ghost use Rattle.cops_session.specs.SessionStands.{SessionStandsFor};
ghost use Rattle.cops_model.specs.declared.calls.NodeCall.{NodeCall};
ghost use Rattle.cops_model.specs.declared.calls.NodeId.{NodeId};
ghost use Rattle.cops_model.specs.declared.calls.NodeReply.{NodeReply};
ghost use Rattle.cops_model.specs.Carrier.{Carrier as SoloCarrier};
ghost use Rattle.cops_repl.specs.Stands.{CarrierStandsFor, RunsIn, has_ended};
ghost use Rattle.cops_model.specs.Cluster.{Actor as Solo, goes_on, reply_of_answer, reply_of_delivery, reply_of_progress};
ghost use Rattle.cops_model.specs.Events.{is_out_of_memory};
ghost use Rattle.cops_model.specs.Lacks.{is_refusal};
ghost use Rattle.cops_script.specs.Acting.{told_act};
ghost use Rattle.cops_world.specs.ActorsStand.{ActorStandsFor, ActorSteps, CarrierSteps, SessionSteps, RunsAt, HasDone, actor_ended, stepped_to};
ghost use Rattle.cops_world.specs.Deeds.{needs_memory};
ghost use Rattle.cops_world.specs.ActorTurns.{actor_does, actor_refusal_by, session_does};
ghost use Rattle.cops_world.specs.declared.actors.Actor.TheVariants.{OfCarrier as KeptCarrier, OfSession as KeptSession};
ghost use Rattle.cops_world.specs.declared.actors.Deed.TheVariants as deeds;

use crate::own_sessions::OwnSession;
use crate::{ByteSlices, Reply};
use cops_context::Context;
use cops_handles::Handle;
use cops_node::Nodes;
use cops_repl::{Carrier, Delivery, Progress as Carrying};
use cops_session::{Answer, Progress, Session};
use cops_types::{Deps, Fault, Key, Name, Near, RequestError, Value};
use std::alloc::{AllocError, Global};
use std::hash::{Hash, Hasher};
use std::marker::Model;

/// An actor, by its tenant and its name.
#[derive(Clone, Copy, Debug, PartialEq, Eq)]
pub struct ActorId {
    pub slot: u64,
    pub name: Name,
}

impl Hash for ActorId {
    ghost use Rattle.std.proofs.Common.{ap};
    ghost use Rattle.cops_types.specs.KeyHashes.{hashed_name_in};
    ghost use Rattle.cops_world.specs.declared.actors.ActorId.{ActorId};
    ghost use Rattle.cops_world.specs.ActorNames.{same_actor_is};

    ghost hash_input = { λ id. hashed_name_in id.slot id.name };

    ghost respects_eq = { λ id other same. ap (λ (a : ActorId). hashed_name_in a.slot a.name) (same_actor_is id other same) };

    #[inline(always)]
    fn hash<H: Hasher>(&self, state: &mut H) {
        self.name.hash_in(self.slot, state);
    }
}

/// A session or a carrier.
#[derive(Drop)]
pub enum Actor {
    OfSession(OwnSession),
    OfCarrier(Carrier),
}

/// The keys of a transaction. Contracts see the list.
#[derive(Debug, Drop)]
pub struct Keys {
    keys: Vec<Key>,
}

impl Model for Keys {
    ghost use Rattle.std.specs.Prelude.{List, ℕ};

    ghost Value = { List (List ℕ) };

    ghost view = { λ k. k.keys.items };
}

impl Keys {
    /// These keys.
    pub(crate) fn of(keys: Vec<Key>) -> Self
        ensures { result ≡ keys.items }
    {
        Keys { keys }
    }

    /// The keys, in order.
    pub(crate) fn as_slice(&self) -> &[Key]
        ensures { result.now ≡ self.now }
    {
        self.keys.as_slice()
    }
}

/// A session command: what a session does without a step.
#[derive(Debug, Drop)]
pub enum Deed {
    /// Creates a context.
    Create,
    /// Deletes a context.
    Delete(u64),
    /// Begins a put, in a context.
    Put(u64, Key, Value),
    /// Begins a get transaction, in a context.
    Get(u64, Keys),
    /// Shows the two lists of a context.
    Show(u64),
}

fn create(session: &mut Session) -> Result<Reply, AllocError>
    ensures own { (config : TenantConfig) (solo : SoloSession) →
        SessionStandsFor config session.old solo →
        HasDone config (session_does config solo deeds.Create) result (KeptSession session.new) }
    ensures asks { OnErr result
        ((config : TenantConfig) (solo : SoloSession) → SessionStandsFor config session.old solo →
        is_refusal (session_does config solo deeds.Create).reply ≡ false) }
    ensures setting { session.new.setting ≡ session.old.setting }
    ensures lack { IsTrue (is_out_of_memory (told_act result)) → session.new ≡ session.old }
{
    match session.create_context() {
        Ok(handle) => Ok(Reply::Created(handle.number())),
        Err(RequestError::Refused(fault)) => Ok(Reply::Refused(fault)),
        Err(RequestError::OutOfMemory) => Err(AllocError),
    }
}

fn delete(session: &mut Session, number: u64) -> Reply
    ensures own { (config : TenantConfig) (solo : SoloSession) →
        SessionStandsFor config session.old solo →
        HasDone config (session_does config solo (deeds.Delete number)) (Ok result)
        (KeptSession session.new) }
    ensures setting { session.new.setting ≡ session.old.setting }
    ensures lack { IsTrue (is_out_of_memory result) → session.new ≡ session.old }
{
    match session.delete_context(Handle::of_number(number)) {
        Ok(()) => Reply::Deleted,
        Err(fault) => Reply::Refused(fault),
    }
}

#[inline(always)]
fn begin_put(
    session: &mut Session,
    number: u64,
    key: Key,
    value: Value,
) -> Result<Reply, AllocError>
    ensures own { (config : TenantConfig) (solo : SoloSession) →
        SessionStandsFor config session.old solo →
        HasDone config (session_does config solo (deeds.Put number key value)) result
        (KeptSession session.new) }
    ensures asks { OnErr result
        ((config : TenantConfig) (solo : SoloSession) → SessionStandsFor config session.old solo →
        is_refusal (session_does config solo (deeds.Put number key value)).reply ≡ false) }
    ensures setting { session.new.setting ≡ session.old.setting }
    ensures lack { IsTrue (is_out_of_memory (told_act result)) → session.new ≡ session.old }
{
    match session.begin_put(Handle::of_number(number), key, value) {
        Ok(_) => Ok(Reply::Started),
        Err(RequestError::Refused(fault)) => Ok(Reply::Refused(fault)),
        Err(RequestError::OutOfMemory) => Err(AllocError),
    }
}

#[inline(always)]
fn begin_get(session: &mut Session, number: u64, keys: &Keys) -> Result<Reply, AllocError>
    ensures own { (config : TenantConfig) (solo : SoloSession) →
        SessionStandsFor config session.old solo →
        HasDone config (session_does config solo (deeds.Get number keys.now)) result
        (KeptSession session.new) }
    ensures asks { OnErr result
        ((config : TenantConfig) (solo : SoloSession) → SessionStandsFor config session.old solo →
        is_refusal (session_does config solo (deeds.Get number keys.now)).reply ≡ false) }
    ensures setting { session.new.setting ≡ session.old.setting }
    ensures lack { IsTrue (is_out_of_memory (told_act result)) → session.new ≡ session.old }
{
    match session.begin_get_trans(Handle::of_number(number), keys.as_slice()) {
        Ok(_) => Ok(Reply::Started),
        Err(RequestError::Refused(fault)) => Ok(Reply::Refused(fault)),
        Err(RequestError::OutOfMemory) => Err(AllocError),
    }
}

/// Copies of the two lists of a context.
fn lists_of(alloc: Global, context: &Context) -> Result<(Deps, Near), AllocError>
    ensures all { IfOk result (λ lists. lists.0 ≡ context.now.all) }
    ensures near { IfOk result (λ lists. lists.1 ≡ context.now.near) }
{
    let all = context.all().to_deps()?;
    let near = context.near().to_near()?;
    Ok((all, near))
}

fn show(alloc: Global, session: &Session, number: u64) -> Result<Reply, AllocError>
    ensures own { (config : TenantConfig) (solo : SoloSession) →
        SessionStandsFor config session.now solo →
        HasDone config (session_does config solo (deeds.Show number)) result
        (KeptSession session.now) }
    ensures asks { OnErr result
        ((config : TenantConfig) (solo : SoloSession) → SessionStandsFor config session.now solo →
        is_refusal (session_does config solo (deeds.Show number)).reply ≡ false) }
{
    match session.context(Handle::of_number(number)) {
        Ok(context) => match lists_of(alloc, context) {
            Ok((all, near)) => Ok(Reply::Lists(all, near)),
            Err(error) => Err(error),
        },
        Err(fault) => Ok(Reply::Refused(fault)),
    }
}

/// Carries out a session command. Fails with `AllocError` if memory runs out, and changes nothing then.
#[inline(always)]
fn act_in(alloc: Global, session: &mut Session, deed: Deed) -> Result<Reply, AllocError>
    ensures own { (config : TenantConfig) (solo : SoloSession) →
        SessionStandsFor config session.old solo →
        HasDone config (session_does config solo deed) result (KeptSession session.new) }
    ensures asks { OnErr result
        ((config : TenantConfig) (solo : SoloSession) → SessionStandsFor config session.old solo →
        is_refusal (session_does config solo deed).reply ≡ false) }
    ensures needs { OnErr result (needs_memory deed ≡ true) }
    ensures setting { session.new.setting ≡ session.old.setting }
    ensures lack { IsTrue (is_out_of_memory (told_act result)) → session.new ≡ session.old }
{
    match deed {
        Deed::Create => create(session),
        Deed::Delete(number) => Ok(delete(session, number)),
        Deed::Put(number, key, value) => begin_put(session, number, key, value),
        Deed::Get(number, keys) => begin_get(session, number, &keys),
        Deed::Show(number) => show(alloc, session, number),
    }
}

/// Turns an answer into a reply.
fn reply_of_answer(answer: Answer) -> Reply
    ensures { result ≡ reply_of_answer answer }
{
    match answer {
        Answer::Stored(pair) => Reply::Stored(pair),
        Answer::Values(reads) => Reply::Values(reads),
        Answer::Refused(fault) => Reply::Refused(fault),
    }
}

/// Turns what a step of a session shows into a reply.
fn reply_of_progress(progress: Progress) -> Reply
    ensures { result ≡ reply_of_progress progress }
{
    match progress {
        Progress::Working => Reply::Working,
        Progress::Restarted(times) => Reply::Restarted(times),
        Progress::Done(answer) => reply_of_answer(answer),
    }
}

/// Turns the end of a carrier into a reply.
fn reply_of_delivery(delivery: Delivery) -> Reply
    ensures reply { result ≡ reply_of_delivery delivery }
    ensures last { goes_on result ≡ false }
{
    match delivery {
        Delivery::Nothing => Reply::Nothing,
        Delivery::Waits(pair) => Reply::Waits(pair),
        Delivery::Carried { pair, fresh, acked } => Reply::Carried(pair, fresh, acked),
        Delivery::OutOfOrder(mark) => Reply::OutOfOrder(mark),
        Delivery::Refused(fault) => Reply::Refused(fault),
    }
}

/// Takes a step of a session. If memory runs out, the request has ended.
#[inline(always)]
fn step_session<N: Nodes>(
    session: &mut Session,
    nodes: &mut N,
    moment: u64,
) -> Result<Reply, AllocError>
    requires data_centres { session.old.setting.data_centres ≡ (N.shape nodes.old).data_centres }
    requires shards { session.old.setting.shards ≡ (N.shape nodes.old).shards }
    ensures steps { (config : TenantConfig) (solo : SoloSession) →
        SessionStandsFor config session.old solo →
        SessionSteps (λ at id call reply.
        N.Answers nodes.old id session.old.setting.slot at call reply nodes.new)
        (nodes.new ≡ nodes.old) config solo moment result session.new solo.running }
    ensures once { (nodes.new ≡ nodes.old)
        ⊎ ((id : NodeId) × (at : ℕ) × (call : NodeCall) × (reply : NodeReply)
        × N.Answers nodes.old id session.old.setting.slot at call reply nodes.new) }
    ensures shape { N.shape nodes.new ≡ N.shape nodes.old }
    ensures setting { session.new.setting ≡ session.old.setting }
{
    match session.running() {
        Some(handle) => match session.step(nodes, handle, moment) {
            Ok(progress) => Ok(reply_of_progress(progress)),
            Err(RequestError::Refused(fault)) => Ok(Reply::Refused(fault)),
            Err(RequestError::OutOfMemory) => Err(AllocError),
        },
        None => Ok(Reply::Refused(Fault::Idle)),
    }
}

/// Takes a step of a carrier. If memory runs out, the carrier has ended.
#[inline(always)]
fn step_carrier<N: Nodes>(
    carrier: &mut Carrier,
    nodes: &mut N,
    slot: u64,
    moment: u64,
) -> Result<Reply, AllocError>
    requires goes_on { has_ended carrier.old ≡ false }
    requires stream { RunsIn (N.shape nodes.old) carrier.old.shards carrier.old.stream }
    ensures steps { (config : TenantConfig) (solo : SoloCarrier) →
        CarrierStandsFor config.shards carrier.old solo →
        CarrierSteps (λ at id call reply. N.Answers nodes.old id slot at call reply nodes.new)
        config solo moment (stepped_to result (KeptCarrier carrier.new)) carrier.new }
    ensures once { (id : NodeId) × (at : ℕ) × (call : NodeCall) × (reply : NodeReply)
        × N.Answers nodes.old id slot at call reply nodes.new }
    ensures shape { N.shape nodes.new ≡ N.shape nodes.old }
    ensures last { has_ended carrier.new ≡ true → goes_on (told_act result) ≡ false }
    ensures stream { carrier.new.stream ≡ carrier.old.stream }
    ensures shards { carrier.new.shards ≡ carrier.old.shards }
{
    match carrier.step(nodes, slot, moment) {
        Ok(Carrying::Working) => Ok(Reply::Working),
        Ok(Carrying::Done(delivery)) => Ok(reply_of_delivery(delivery)),
        Err(error) => Err(error),
    }
}

impl Actor {
    /// Does what it is asked to do, if it is a session. Fails with `AllocError` if memory runs out: then
    /// nothing changed, and what was asked isn't refused otherwise.
    #[inline(always)]
    pub(crate) fn act(&mut self, alloc: Global, deed: Deed) -> Result<Reply, AllocError>
        ensures own { (config : TenantConfig) (solo : Solo) → ActorStandsFor config self.old solo →
            HasDone config (actor_does config deed solo) result self.new }
        ensures asks { OnErr result
            ((config : TenantConfig) (solo : Solo) → ActorStandsFor config self.old solo →
            is_refusal (actor_does config deed solo).reply ≡ false) }
        ensures needs { OnErr result (needs_memory deed ≡ true) }
        ensures runs { (shape : Shape) (slot : ℕ) → RunsAt shape slot self.old →
            RunsAt shape slot self.new }
        ensures lack { IsTrue (is_out_of_memory (told_act result)) → self.new ≡ self.old }
    {
        match self {
            Actor::OfSession(own) => act_in(alloc, &mut own.session, deed),
            Actor::OfCarrier(_) => Ok(Reply::Refused(Fault::UnknownName)),
        }
    }

    /// Returns why it refuses a put of this key, if it does. Allocates nothing.
    pub(crate) fn put_refusal(&self, number: u64, key: &Key) -> Option<Fault>
        ensures { (config : TenantConfig) (solo : Solo) → ActorStandsFor config self.now solo →
            result ≡ actor_refusal_by (session_put_refusal config number key.now) solo }
    {
        match self {
            Actor::OfSession(own) => own.session.put_refusal(Handle::of_number(number), key),
            Actor::OfCarrier(_) => Some(Fault::UnknownName),
        }
    }

    /// Returns why it refuses a get transaction over keys of these bytes, if it does. Allocates
    /// nothing.
    pub(crate) fn get_refusal(&self, number: u64, keys: &ByteSlices) -> Option<Fault>
        ensures { (config : TenantConfig) (solo : Solo) → ActorStandsFor config self.now solo →
            result ≡ actor_refusal_by (get_refusal config number keys.now) solo }
    {
        match self {
            Actor::OfSession(own) => own.session.get_refusal(Handle::of_number(number), keys),
            Actor::OfCarrier(_) => Some(Fault::UnknownName),
        }
    }

    /// Takes a step at a timestamp, for the tenant of a slot. If memory runs out, a session's request or
    /// the carrier has ended.
    ///
    /// It is inlined: a reply is large, and would be copied.
    #[inline(always)]
    pub(crate) fn step<N: Nodes>(
        &mut self,
        nodes: &mut N,
        slot: u64,
        moment: u64,
    ) -> Result<Reply, AllocError>
        requires { RunsAt (N.shape nodes.old) slot self.old }
        ensures steps { (config : TenantConfig) (solo : Solo) →
            ActorStandsFor config self.old solo →
            ActorSteps (λ at id call reply. N.Answers nodes.old id slot at call reply nodes.new)
            (nodes.new ≡ nodes.old) config moment (stepped_to result self.new) solo self.new }
        ensures last { actor_ended self.new ≡ true → goes_on (told_act result) ≡ false }
        ensures once { (nodes.new ≡ nodes.old)
            ⊎ ((id : NodeId) × (at : ℕ) × (call : NodeCall) × (reply : NodeReply)
            × N.Answers nodes.old id slot at call reply nodes.new) }
        ensures shape { N.shape nodes.new ≡ N.shape nodes.old }
        ensures runs { (shape : Shape) (slot : ℕ) → RunsAt shape slot self.old →
            RunsAt shape slot self.new }
    {
        match self {
            Actor::OfSession(own) => step_session(&mut own.session, nodes, moment),
            Actor::OfCarrier(carrier) => {
                if carrier.ended() {
                    return Ok(Reply::Refused(Fault::Torn));
                }
                step_carrier(carrier, nodes, slot, moment)
            }
        }
    }

    /// Returns whether it is a carrier that has ended.
    pub(crate) fn has_ended(&self) -> bool
        ensures { result ≡ actor_ended self.now }
    {
        match self {
            Actor::OfSession(_) => false,
            Actor::OfCarrier(carrier) => carrier.ended(),
        }
    }
}
