//! The requests of a client, as its session answers them.
ghost use Rattle.std.specs.Prelude.{◌≡◌, ℕ, List, [], Some, None, true, OnOk, OnErr, IfOk, MatchResult};
ghost use Rattle.cops_types.specs.Key.{is_key};
ghost use Rattle.cops_types.specs.RequestErrors.{AnswersUnless, OnOutOfMemory};
ghost use Rattle.cops_types.specs.TenantConfig.{TenantConfig};
ghost use Rattle.cops_session.specs.Kept.{IsOfSizes};
ghost use Rattle.cops_model.specs.Request.{Write, Fetch};
ghost use Rattle.cops_model.specs.Session.{Session as SoloSession, context_created, context_deleted, create_refusal, request_begun};
ghost use Rattle.cops_session.specs.SessionStands.{SessionStandsFor};
ghost use Rattle.cops_wire.specs.declared.messages.Message.{Message};
ghost use Rattle.cops_wire.specs.Fitting.{CanBeWritten};
ghost use Rattle.cops_wire.specs.Reading.{put_message_of};
ghost use Rattle.cops_wire.specs.Clients.{IsSameClient, client_backend};
ghost use Rattle.cops_wire.specs.Requests.{KeepsShape, HasAnswered, deletion_refusal, naming_refusal, number_in, reading_refusal, writing_refusal};
ghost use Rattle.cops_wire.specs.Running.{AreKeysOf, Asks, HasRun, IsRequestDone, PutsFrame};
ghost use Rattle.cops_wire.specs.Spelling.{spelling};
ghost use Rattle.cops_handles.specs.Wire.{wire_of};
ghost use Rattle.cops_session.specs.Tags.{context_tag};

use crate::messages::Message;
use crate::moments::Moments;
use crate::reading::{PutParts, Request};
use crate::steps::finish;
use crate::writing::{encode, push_failure};
use cops_handles::Handle;
use cops_node::Nodes;
use cops_session::{Contexts, Session};
use cops_types::{Fault, Key, RequestError, Value};
use std::alloc::{AllocError, Global};

/// The context that a handle names, while no request runs.
fn context_of(session: &Session, handle: &[u8; 9]) -> Result<Handle<Contexts>, Fault>
    ensures named { IfOk result (λ context. context ≡ number_in handle.now) }
    ensures refused { (config : TenantConfig) (solo : SoloSession) →
        SessionStandsFor config session.now solo →
        MatchResult result (λ _. naming_refusal handle.now solo ≡ None)
        (λ fault. naming_refusal handle.now solo ≡ Some fault) }
{
    if session.running().is_some() {
        return Err(Fault::Busy);
    }
    Handle::from_wire(*handle)
}

/// Opens a context and returns its handle. Fails with `AllocError` if memory runs out.
fn create(session: &mut Session) -> Result<Message, AllocError>
    ensures created { (config : TenantConfig) (solo : SoloSession) →
        SessionStandsFor config session.old solo →
        IfOk result (λ reply. IsRequestDone config (create_refusal config solo) solo
        (context_created solo) (Message.Created (wire_of context_tag solo.next_context)) session.new
        reply) }
    ensures setting { session.new.setting ≡ session.old.setting }
    ensures fits { IfOk result (λ reply. CanBeWritten reply) }
    ensures allowed { (config : TenantConfig) (solo : SoloSession) →
        SessionStandsFor config session.old solo →
        OnErr result (create_refusal config solo ≡ None) }
    ensures err { OnErr result (session.new ≡ session.old) }
{
    match session.create_context() {
        Ok(context) => Ok(Message::Created(context.to_wire())),
        Err(RequestError::Refused(fault)) => Ok(Message::Refused(fault)),
        Err(RequestError::OutOfMemory) => Err(AllocError),
    }
}

/// Closes the context that a handle names.
fn close(session: &mut Session, handle: &[u8; 9]) -> Result<(), Fault>
    ensures closed { (config : TenantConfig) (solo : SoloSession) →
        SessionStandsFor config session.old solo →
        OnOk result (SessionStandsFor config session.new
        (context_deleted (number_in handle.now) solo)) }
    ensures refused { (config : TenantConfig) (solo : SoloSession) →
        SessionStandsFor config session.old solo →
        MatchResult result (λ _. deletion_refusal handle.now solo ≡ None)
        (λ fault. deletion_refusal handle.now solo ≡ Some fault) }
    ensures setting { session.new.setting ≡ session.old.setting }
    ensures err { OnErr result (session.new ≡ session.old) }
{
    let context = context_of(session, handle)?;
    session.delete_context(context)
}

/// Closes a context.
fn delete(session: &mut Session, handle: &[u8; 9]) -> Message
    ensures deleted { (config : TenantConfig) (solo : SoloSession) →
        SessionStandsFor config session.old solo →
        IsRequestDone config (deletion_refusal handle.now solo) solo
        (context_deleted (number_in handle.now) solo) Message.Deleted session.new result }
    ensures setting { session.new.setting ≡ session.old.setting }
    ensures fits { CanBeWritten result }
{
    match close(session, handle) {
        Ok(()) => Message::Deleted,
        Err(fault) => Message::Refused(fault),
    }
}

/// Begins a put.
fn begin_put(
    alloc: Global,
    session: &mut Session,
    handle: &[u8; 9],
    key: &[u8],
    value: &[u8],
) -> Result<(), RequestError>
    ensures begun { (config : TenantConfig) (solo : SoloSession) →
        SessionStandsFor config session.old solo →
        OnOk result (SessionStandsFor config session.new
        (request_begun (number_in handle.now) (Write key.now value.now) solo)) }
    ensures told { (config : TenantConfig) (solo : SoloSession) →
        SessionStandsFor config session.old solo →
        AnswersUnless (writing_refusal config handle.now key.now value.now solo) result }
    ensures allowed { OnOutOfMemory result (is_key key.now ≡ true) }
    ensures setting { session.new.setting ≡ session.old.setting }
    ensures err { OnErr result (session.new ≡ session.old) }
{
    let key = Key::new(key)?;
    let value = Value::new(alloc, value)?;
    let context = context_of(session, handle)?;
    session.begin_put(context, key, value)?;
    Ok(())
}

/// Begins a get transaction of keys that were made of its lists, unless that failed.
fn begin_get(
    session: &mut Session,
    handle: &[u8; 9],
    made: Result<(), RequestError>,
    keys: &[Key],
) -> Result<(), RequestError>
    ensures begun { (lists : List (List ℕ)) → AreKeysOf lists made keys.now →
        (config : TenantConfig) (solo : SoloSession) → SessionStandsFor config session.old solo →
        OnOk result (SessionStandsFor config session.new
        (request_begun (number_in handle.now) (Fetch lists) solo)) }
    ensures told { (lists : List (List ℕ)) → AreKeysOf lists made keys.now →
        (config : TenantConfig) (solo : SoloSession) → SessionStandsFor config session.old solo →
        AnswersUnless (reading_refusal config handle.now lists solo) result }
    ensures setting { session.new.setting ≡ session.old.setting }
    ensures err { OnErr result (session.new ≡ session.old) }
{
    made?;
    let context = context_of(session, handle)?;
    session.begin_get_trans(context, keys)?;
    Ok(())
}

/// A session, and what its requests are answered from.
#[derive(Drop)]
pub(crate) struct Client<'a, N, M> {
    pub session: &'a mut Session,
    pub nodes: &'a mut N,
    pub moments: &'a mut M,
}

impl<N: Nodes, M: Moments> Client<'_, N, M> {
    /// Takes the steps of a request that was begun, and appends its reply, or why it was not begun.
    fn run(&mut self, begun: Result<(), RequestError>, out: &mut Vec<u8>) -> Result<(), AllocError>
        requires fits { IsOfSizes (N.shape self.old.nodes.now).data_centres
            (N.shape self.old.nodes.now).shards self.old.session.now.setting }
        ensures ran { HasRun (KeepsShape N.shape N.Answers) M.Gives
            (client_backend self.old) begun (client_backend self.new)
            (PutsFrame result out.old.items out.new.items) }
        ensures same { IsSameClient self.old self.new }
        ensures setting { self.new.session.now.setting ≡ self.old.session.now.setting }
        ensures shape { N.shape self.new.nodes.now ≡ N.shape self.old.nodes.now }
    {
        match begun {
            Ok(()) => finish(self.session, self.nodes, self.moments, out),
            Err(error) => push_failure(out, error),
        }
    }

    /// Answers a put as `answer` does.
    fn put(&mut self, alloc: Global, put: PutParts, out: &mut Vec<u8>) -> Result<(), AllocError>
        requires fits { IsOfSizes (N.shape self.old.nodes.now).data_centres
            (N.shape self.old.nodes.now).shards self.old.session.now.setting }
        ensures answered { (reply : Message)
            × HasAnswered (KeepsShape N.shape N.Answers) M.Gives
            (client_backend self.old) (put_message_of put.entry) reply (client_backend self.new)
            × PutsFrame result out.old.items out.new.items reply }
        ensures same { IsSameClient self.old self.new }
        ensures setting { self.new.session.now.setting ≡ self.old.session.now.setting }
        ensures shape { N.shape self.new.nodes.now ≡ N.shape self.old.nodes.now }
    {
        let begun = begin_put(alloc, self.session, &put.handle, put.key, put.value);
        self.run(begun, out)
    }

    /// Answers a get transaction over the keys that were made of its lists, as `answer` does.
    fn get(
        &mut self,
        handle: &[u8; 9],
        made: Result<(), RequestError>,
        keys: &[Key],
        out: &mut Vec<u8>,
    ) -> Result<(), AllocError>
        requires fits { IsOfSizes (N.shape self.old.nodes.now).data_centres
            (N.shape self.old.nodes.now).shards self.old.session.now.setting }
        ensures answered { (lists : List (List ℕ)) → AreKeysOf lists made keys.now →
            (reply : Message)
            × HasAnswered (KeepsShape N.shape N.Answers) M.Gives
            (client_backend self.old) (Message.GetTrans handle.now lists) reply
            (client_backend self.new)
            × PutsFrame result out.old.items out.new.items reply }
        ensures same { IsSameClient self.old self.new }
        ensures setting { self.new.session.now.setting ≡ self.old.session.now.setting }
        ensures shape { N.shape self.new.nodes.now ≡ N.shape self.old.nodes.now }
    {
        let begun = begin_get(self.session, handle, made, keys);
        self.run(begun, out)
    }

    /// Answers a request and appends its reply. The keys are those of a get transaction.
    ///
    /// On `Err` nothing was appended; the request may still have taken effect.
    pub(crate) fn answer(
        &mut self,
        alloc: Global,
        request: Request,
        keys: &[Key],
        out: &mut Vec<u8>,
    ) -> Result<(), AllocError>
        requires fits { IsOfSizes (N.shape self.old.nodes.now).data_centres
            (N.shape self.old.nodes.now).shards self.old.session.now.setting }
        ensures answered { (message : Message) → Asks request.entry keys.now message →
            (reply : Message)
            × HasAnswered (KeepsShape N.shape N.Answers) M.Gives
            (client_backend self.old) message reply (client_backend self.new)
            × PutsFrame result out.old.items out.new.items reply }
        ensures same { IsSameClient self.old self.new }
        ensures setting { self.new.session.now.setting ≡ self.old.session.now.setting }
        ensures shape { N.shape self.new.nodes.now ≡ N.shape self.old.nodes.now }
    {
        match request {
            Request::Create => match create(self.session) {
                Ok(reply) => encode(&reply, out),
                Err(error) => push_failure(out, RequestError::from(error)),
            },
            Request::Delete(handle) => encode(&delete(self.session, &handle), out),
            Request::Put(put) => self.put(alloc, put, out),
            Request::Get(handle, made) => self.get(&handle, made, keys, out),
        }
    }
}
