ghost use Rattle.std.specs.Prelude.{◌≡◌, ◌⊎◌, ◌<◌, ◌+◌, ◌-◌, ◌^◌, ℕ, List, Option, [], false, length, max, Some, None, IfOk, IsTrue, OnOk, OnErr, MatchResult, slice_get};
ghost use Rattle.std.specs.Option.{option_map};
ghost use Rattle.cops_types.specs.Refusal.{refused_if};
ghost use Rattle.cops_types.specs.RequestErrors.{OnOutOfMemory, OnRefusal, told_refusal};
ghost use Rattle.cops_types.specs.TenantConfig.{TenantConfig, tenant_config};
ghost use Rattle.cops_model.specs.Session.{is_spent};
ghost use Rattle.cops_model.specs.declared.calls.NodeCall.{NodeCall};
ghost use Rattle.cops_model.specs.declared.calls.NodeId.{NodeId};
ghost use Rattle.cops_model.specs.declared.calls.NodeReply.{NodeReply};
ghost use Rattle.cops_context.specs.Lists.{ListsStandFor};
ghost use Rattle.cops_session.specs.Stepping.{end_by_error};
ghost use Rattle.cops_session.specs.declared.ongoing.Work.TheVariants as work;

use crate::contexts::{prepare_put, see_put, see_reads};
use crate::kinds::{Contexts, Running};
use crate::ongoing::{Ongoing, PendingPut, Reading, Work};
use crate::reading::ReadStep;
use crate::repeats::{are_repeated, are_too_many, has_repeats};
use crate::rounds::Rounds;
use crate::settings::Setting;
use crate::writing::write_step;
use crate::{Answer, Progress};
use cops_context::Context;
use cops_handles::{Handle, Table};
use cops_model::ByteSlices;
use cops_node::Nodes;
use cops_types::{Config, Fault, Key, Pair, Reads, RequestError, Tenant, Value};
use std::alloc::{AllocError, Global};
use std::marker::Model;

/// A client's session: its contexts, and its running request, as steps of at most one node call
/// each. Contracts see its state, and say what it represents.
#[derive(Drop)]
pub struct Session {
    alloc: Global,
    setting: Setting,
    moment: u64,
    contexts: Table<Contexts>,
    next_request: u64,
    running: Option<Ongoing>,
}

impl Model for Session {
    ghost use Rattle.cops_session.specs.Kept.{IsKept, KeptSession};

    ghost Value = { KeptSession };

    ghost view = { λ s. record { setting = s.setting; moment = s.moment; contexts = s.contexts; next_request = s.next_request; running = s.running } };

    ghost invariant = { λ s. IsKept s.setting s.contexts s.running };
}

/// Returns why there is no number for another request, if this is the next.
fn number_refusal(next: u64) -> Option<Fault>
    ensures { result ≡ refused_if (is_spent next) Fault.IdsSpent }
{
    if next == u64::MAX {
        Some(Fault::IdsSpent)
    } else {
        None
    }
}

/// Ends the running request.
#[inline(always)]
fn end(running: &mut Option<Ongoing>)
    ensures { running.new ≡ None }
{
    *running = None;
}

/// Returns how a request ends with this error: a fault is its answer.
fn end_by_error(error: RequestError) -> Result<Progress, RequestError>
    ensures { result ≡ end_by_error error }
{
    match error {
        RequestError::Refused(fault) => Ok(Progress::Done(Answer::Refused(fault))),
        RequestError::OutOfMemory => Err(RequestError::OutOfMemory),
    }
}

impl Session {
    ghost use Rattle.cops_session.specs.Kept.{HasRoomInContext, IsOpen, IsPlaced, IsReadyFor, KeptSession, is_running};
    ghost use Rattle.cops_model.specs.Request.{Write, Fetch, next, values_or_full};
    ghost use Rattle.cops_model.specs.Session.{OpenContext, Running as SoloRunning, Session as SoloSession, context_created, context_deleted, context_extended, context_refusal, create_refusal, get_refusal, moment_at, new_session, obs_of, request_begun, request_of, seen_in, session_put_refusal};
    ghost use Rattle.cops_session.specs.SessionStands.{SessionStandsFor, ContextsStandFor, obs_in};
    ghost use Rattle.cops_session.specs.Stepping.{StepsFrom, TellsNext, runs, told_step};
    ghost use Rattle.cops_session.specs.Writing.{told_answer};

    /// Returns a session of a tenant of the configuration in a data centre, without contexts. Its
    /// first numbers are 1.
    pub fn new(alloc: Global, config: &Config, slot: u64, dc: u64) -> Self
        requires slot { slot < length config.now.tenants }
        requires dc { dc < config.now.data_centres }
        requires shards { 0 < config.now.shards }
        ensures stands { (tenant : Tenant) → slice_get config.now.tenants slot ≡ Some tenant →
            SessionStandsFor (tenant_config config.now tenant) result (new_session dc 1) }
        ensures slot { result.setting.slot ≡ slot }
    {
        let tenant = config.tenants.tenant(slot);
        Session::of_tenant(alloc, config, tenant, slot, dc)
    }

    /// Returns a session of a tenant with this slot, who need not be in the configuration, in a
    /// data centre of the configuration. It has no contexts, and its first numbers are 1.
    pub fn of_tenant(alloc: Global, config: &Config, tenant: &Tenant, slot: u64, dc: u64) -> Self
        requires dc { dc < config.now.data_centres }
        requires shards { 0 < config.now.shards }
        ensures stands { SessionStandsFor (tenant_config config.now tenant.now) result
            (new_session dc 1) }
        ensures slot { result.setting.slot ≡ slot }
    {
        Session::of_tenant_starting_at(alloc, config, tenant, slot, dc, 1)
    }

    /// Returns a session of a tenant of the configuration, whose numbers begin with `first`.
    pub fn starting_at(alloc: Global, config: &Config, slot: u64, dc: u64, first: u64) -> Self
        requires slot { slot < length config.now.tenants }
        requires dc { dc < config.now.data_centres }
        requires shards { 0 < config.now.shards }
        ensures stands { (tenant : Tenant) → slice_get config.now.tenants slot ≡ Some tenant →
            SessionStandsFor (tenant_config config.now tenant) result (new_session dc first) }
        ensures slot { result.setting.slot ≡ slot }
    {
        let tenant = config.tenants.tenant(slot);
        Session::of_tenant_starting_at(alloc, config, tenant, slot, dc, first)
    }

    /// Returns a session of a tenant with this slot, whose numbers begin with `first`.
    pub fn of_tenant_starting_at(
        alloc: Global,
        config: &Config,
        tenant: &Tenant,
        slot: u64,
        dc: u64,
        first: u64,
    ) -> Self
        requires dc { dc < config.now.data_centres }
        requires shards { 0 < config.now.shards }
        ensures stands { SessionStandsFor (tenant_config config.now tenant.now) result
            (new_session dc first) }
        ensures slot { result.setting.slot ≡ slot }
    {
        let quota = tenant.quota;
        let setting = Setting {
            slot,
            dc,
            data_centres: config.data_centres,
            shards: config.shards,
            trans_time: config.trans_time,
            restarts: config.restarts,
            deps: quota.deps,
        };
        Session::of_setting(alloc, setting, quota.contexts, first)
    }

    /// Returns a session with at most `contexts` open contexts, whose numbers begin with `first`.
    pub(crate) fn of_setting(alloc: Global, setting: Setting, contexts: u64, first: u64) -> Self
        requires { IsPlaced setting }
        ensures { result ≡ record { setting = setting; moment = 0; contexts = record { rows = []; next = first; limit = contexts }; next_request = first; running = None } }
    {
        Session {
            alloc,
            setting,
            moment: 0,
            contexts: Table::starting_at(alloc, first, contexts),
            next_request: first,
            running: None,
        }
    }

    /// Opens an empty context. Is refused if too many are open or their numbers are exhausted.
    pub fn create_context(&mut self) -> Result<Handle<Contexts>, RequestError>
        ensures created { (config : TenantConfig) (session : SoloSession) →
            SessionStandsFor config self.old session →
            IfOk result (λ handle. (handle ≡ session.next_context)
            × SessionStandsFor config self.new (context_created session)) }
        ensures told { (config : TenantConfig) (session : SoloSession) →
            SessionStandsFor config self.old session →
            create_refusal config session ≡ told_refusal result }
        ensures setting { self.new.setting ≡ self.old.setting }
        ensures err { OnErr result (self.new ≡ self.old) }
    {
        if self.running.is_some() {
            return Err(RequestError::Refused(Fault::Busy));
        }
        match self.contexts.open(Context::new(self.alloc)) {
            Ok(handle) => Ok(handle),
            Err(back) => Err(back.error),
        }
    }

    /// Closes a context and its number. Fails with a `Fault` if the context is not open or a
    /// request runs.
    pub fn delete_context(&mut self, handle: Handle<Contexts>) -> Result<(), Fault>
        ensures deleted { (config : TenantConfig) (session : SoloSession) →
            SessionStandsFor config self.old session →
            OnOk result (SessionStandsFor config self.new (context_deleted handle session)) }
        ensures refused { (config : TenantConfig) (session : SoloSession) →
            SessionStandsFor config self.old session →
            MatchResult result (λ _. context_refusal handle session ≡ None)
            (λ fault. context_refusal handle session ≡ Some fault) }
        ensures setting { self.new.setting ≡ self.old.setting }
        ensures err { OnErr result (self.new ≡ self.old) }
    {
        if self.running.is_some() {
            return Err(Fault::Busy);
        }
        match self.contexts.close(handle) {
            Ok(_) => Ok(()),
            Err(fault) => Err(fault),
        }
    }

    /// Returns an open context. Fails with a `Fault` if it is not open.
    pub fn context(&self, handle: Handle<Contexts>) -> Result<&Context, Fault>
        ensures stands { (config : TenantConfig) (session : SoloSession) →
            SessionStandsFor config self.now session →
            IfOk result (λ context. ListsStandFor context.now (obs_of handle session)) }
        ensures refused { (config : TenantConfig) (session : SoloSession) →
            SessionStandsFor config self.now session →
            MatchResult result (λ _. context_refusal handle session ≡ None)
            (λ fault. context_refusal handle session ≡ Some fault) }
    {
        if self.running.is_some() {
            return Err(Fault::Busy);
        }
        self.contexts.get(handle)
    }

    /// Returns why a put of this key is refused, if it is. Allocates nothing.
    pub fn put_refusal(&self, handle: Handle<Contexts>, key: &Key) -> Option<Fault>
        ensures { (config : TenantConfig) (session : SoloSession) →
            SessionStandsFor config self.now session →
            result ≡ session_put_refusal config handle key.now session }
    {
        match self.context(handle) {
            Ok(seen) => {
                if seen.can_put(key, self.setting.deps) {
                    number_refusal(self.next_request)
                } else {
                    Some(Fault::DependenciesFull)
                }
            }
            Err(fault) => Some(fault),
        }
    }

    /// Returns why a get transaction over keys of these bytes is refused, if it is. Allocates
    /// nothing.
    pub fn get_refusal(&self, handle: Handle<Contexts>, keys: &ByteSlices) -> Option<Fault>
        ensures { (config : TenantConfig) (session : SoloSession) →
            SessionStandsFor config self.now session →
            result ≡ get_refusal config handle keys.now session }
    {
        if keys.is_empty() {
            return Some(Fault::Syntax);
        }
        if let Err(fault) = self.context(handle) {
            return Some(fault);
        }
        if are_too_many(keys) {
            return Some(Fault::TooManyKeys);
        }
        if are_repeated(keys) {
            return Some(Fault::RepeatedKey);
        }
        number_refusal(self.next_request)
    }

    /// Returns the handle of the running request.
    pub fn running(&self) -> Option<Handle<Running>>
        ensures { (config : TenantConfig) (session : SoloSession) →
            SessionStandsFor config self.now session →
            result ≡ option_map (λ running. running.number) session.running }
    {
        match &self.running {
            Some(ongoing) => Some(Handle::of_number(ongoing.number)),
            None => None,
        }
    }

    /// Begins a put of a value under a key, which then takes one step. Is refused if the definition
    /// refuses it. Memory can run out for its lists.
    #[inline(always)]
    pub fn begin_put(
        &mut self,
        handle: Handle<Contexts>,
        key: Key,
        value: Value,
    ) -> Result<Handle<Running>, RequestError>
        ensures begun { (config : TenantConfig) (session : SoloSession) →
            SessionStandsFor config self.old session →
            IfOk result (λ number. (number ≡ session.next_request)
            × SessionStandsFor config self.new (request_begun handle (Write key value) session)) }
        ensures told { (config : TenantConfig) (session : SoloSession) →
            SessionStandsFor config self.old session →
            session_put_refusal config handle key session ≡ told_refusal result }
        ensures setting { self.new.setting ≡ self.old.setting }
        ensures err { OnErr result (self.new ≡ self.old) }
    {
        let same = handle;
        let again = handle;
        if self.running.is_some() {
            return Err(RequestError::Refused(Fault::Busy));
        }
        let seen = match self.contexts.get(handle) {
            Ok(seen) => seen,
            Err(fault) => return Err(RequestError::Refused(fault)),
        };
        // `prepare_put` checks the limit, unless request numbers are exhausted.
        if self.next_request == u64::MAX {
            if seen.can_put(&key, self.setting.deps) {
                return Err(RequestError::Refused(Fault::IdsSpent));
            }
            return Err(RequestError::Refused(Fault::DependenciesFull));
        }
        let (deps, near) = prepare_put(&mut self.contexts, same, &key, self.setting.deps)?;
        let writing = PendingPut {
            key,
            value,
            deps,
            near,
        };
        Ok(self.begin(again, Work::Put(writing)))
    }

    /// Begins a get transaction over keys. Is refused if the definition refuses it. Memory can run
    /// out for its first round.
    pub fn begin_get_trans(
        &mut self,
        handle: Handle<Contexts>,
        keys: &[Key],
    ) -> Result<Handle<Running>, RequestError>
        ensures begun { (config : TenantConfig) (session : SoloSession) →
            SessionStandsFor config self.old session →
            IfOk result (λ number. (number ≡ session.next_request)
            × SessionStandsFor config self.new (request_begun handle (Fetch keys.now) session)) }
        ensures told { (config : TenantConfig) (session : SoloSession) →
            SessionStandsFor config self.old session →
            get_refusal config handle keys.now session ≡ told_refusal result }
        ensures setting { self.new.setting ≡ self.old.setting }
        ensures err { OnErr result (self.new ≡ self.old) }
    {
        let same = handle;
        if keys.is_empty() {
            return Err(RequestError::Refused(Fault::Syntax));
        }
        if self.running.is_some() {
            return Err(RequestError::Refused(Fault::Busy));
        }
        if let Err(fault) = self.contexts.get(handle) {
            return Err(RequestError::Refused(fault));
        }
        if keys.len() > 32 {
            return Err(RequestError::Refused(Fault::TooManyKeys));
        }
        if has_repeats(keys) {
            return Err(RequestError::Refused(Fault::RepeatedKey));
        }
        if self.next_request == u64::MAX {
            return Err(RequestError::Refused(Fault::IdsSpent));
        }
        let reading = Reading {
            restarts: 0,
            start: None,
            rounds: Rounds::begin(self.alloc, keys)?,
        };
        Ok(self.begin(same, Work::Get(reading)))
    }

    /// Runs a request, under the next number.
    #[inline(always)]
    fn begin(&mut self, context: Handle<Contexts>, work: Work) -> Handle<Running>
        requires left { self.old.next_request < 2 ^ 64 - 1 }
        requires ready { IsReadyFor work context self.old.contexts.rows }
        ensures number { result ≡ self.old.next_request }
        ensures left { is_spent self.old.next_request ≡ false }
        ensures begun { self.new ≡ record self.old { next_request = self.old.next_request + 1; running = Some (record { number = self.old.next_request; context = context; work = work }) } }
    {
        let number = self.next_request;
        self.next_request = number + 1;
        self.running = Some(Ongoing {
            number,
            context,
            work,
        });
        Handle::of_number(number)
    }

    /// Takes a step of the running request, at the greatest timestamp so far. Is refused if no such
    /// request runs. Memory can run out at the node, or for the reads of a round; the request has
    /// then ended.
    pub fn step<N: Nodes>(
        &mut self,
        nodes: &mut N,
        handle: Handle<Running>,
        moment: u64,
    ) -> Result<Progress, RequestError>
        requires data_centres { self.old.setting.data_centres ≡ (N.shape nodes.old).data_centres }
        requires shards { self.old.setting.shards ≡ (N.shape nodes.old).shards }
        ensures stepped { (config : TenantConfig) (session : SoloSession) →
            SessionStandsFor config self.old session → MatchResult (told_step result)
            (λ told. (running : SoloRunning) × (session.running ≡ Some running)
            × (running.number ≡ handle)
            × TellsNext (λ id call reply. N.Answers nodes.old id self.old.setting.slot
            (moment_at moment session) call reply nodes.new) (nodes.new ≡ nodes.old)
            config session running (moment_at moment session) told self.new
            (next config (request_of session running) running.log (moment_at moment session)))
            (λ fault. (fault ≡ Fault.Idle) × (runs handle session ≡ false)) }
        ensures once { (nodes.new ≡ nodes.old)
            ⊎ ((id : NodeId) × (at : ℕ) × (call : NodeCall) × (reply : NodeReply)
            × N.Answers nodes.old id self.old.setting.slot at call reply nodes.new) }
        ensures shape { N.shape nodes.new ≡ N.shape nodes.old }
        ensures setting { self.new.setting ≡ self.old.setting }
        ensures idle { OnRefusal result (self.new ≡ self.old) }
        ensures idle_nodes { OnRefusal result (nodes.new ≡ nodes.old) }
        ensures lack { OnOutOfMemory result
            (self.new ≡ record self.old { moment = self.new.moment; running = None }) }
    {
        if !self.runs(handle) {
            return Err(RequestError::Refused(Fault::Idle));
        }
        match &mut self.running {
            Some(ongoing) => match &mut ongoing.work {
                Work::Get(reading) => {
                    let mut later = self.moment.max(moment);
                    let outcome = reading.step(nodes, self.setting, &mut later);
                    self.moment = later;
                    match outcome {
                        Ok(step) => match step {
                            ReadStep::Working => return Ok(Progress::Working),
                            ReadStep::Restarted => {
                                return Ok(Progress::Restarted(reading.restarts));
                            }
                            ReadStep::Complete => {
                                let reads = reading.rounds.take_reads();
                                let context = ongoing.context;
                                end(&mut self.running);
                                match self.values(context, reads) {
                                    Ok(answer) => return Ok(Progress::Done(answer)),
                                    Err(error) => return Err(RequestError::from(error)),
                                }
                            }
                        },
                        Err(error) => {
                            end(&mut self.running);
                            return end_by_error(error);
                        }
                    }
                }
                Work::Put(_) => {}
            },
            None => return Err(RequestError::Refused(Fault::Idle)),
        }
        // A put runs, so neither refusal below is ever the answer.
        let Some(ongoing) = self.running.take() else {
            return Err(RequestError::Refused(Fault::Idle));
        };
        let Ongoing {
            number: _,
            context,
            work,
        } = ongoing;
        let Work::Put(writing) = work else {
            return Err(RequestError::Refused(Fault::Idle));
        };
        self.put(nodes, context, writing, moment)
    }

    /// Returns `true` if the request of this number runs.
    fn runs(&self, handle: Handle<Running>) -> bool
        ensures { result ≡ is_running handle self.now.running }
    {
        match &self.running {
            Some(ongoing) => ongoing.number == handle.number(),
            None => false,
        }
    }

    /// Takes the one step of a put, which ends it. The answer is that of `step`.
    fn put<N: Nodes>(
        &mut self,
        nodes: &mut N,
        context: Handle<Contexts>,
        writing: PendingPut,
        moment: u64,
    ) -> Result<Progress, RequestError>
        requires data_centres { self.old.setting.data_centres ≡ (N.shape nodes.old).data_centres }
        requires shards { self.old.setting.shards ≡ (N.shape nodes.old).shards }
        requires idle { self.old.running ≡ None }
        requires ready { HasRoomInContext context writing.key self.old.contexts.rows }
        ensures stepped { (number : ℕ) →
            StepsFrom (λ id at call reply.
            N.Answers nodes.old id self.old.setting.slot at call reply nodes.new)
            (nodes.new ≡ nodes.old)
            (record self.old { running = Some (record { number = number; context = context; work = work.Put writing }) }) moment result self.new }
        ensures taken { OnRefusal result ⊥ }
        ensures lack { OnOutOfMemory result
            (self.new ≡ record self.old { moment = self.new.moment; running = None }) }
        ensures once { (id : NodeId) × (at : ℕ) × (call : NodeCall) × (reply : NodeReply)
            × N.Answers nodes.old id self.old.setting.slot at call reply nodes.new }
        ensures shape { N.shape nodes.new ≡ N.shape nodes.old }
        ensures setting { self.new.setting ≡ self.old.setting }
    {
        let key = writing.key;
        self.moment = self.moment.max(moment);
        match write_step(nodes, self.setting, writing, self.moment) {
            Ok(version) => {
                let pair = Pair { key, version };
                see_put(&mut self.contexts, context, &pair);
                return Ok(Progress::Done(Answer::Stored(pair)));
            }
            Err(error) => return end_by_error(error),
        }
    }

    /// Returns the answer to a transaction that read all its keys: the context sees them, or has no
    /// room. Fails with `AllocError` if memory runs out.
    #[inline(always)]
    fn values(&mut self, context: Handle<Contexts>, reads: Reads) -> Result<Answer, AllocError>
        requires idle { self.old.running ≡ None }
        requires ready { IsOpen context self.old.contexts.rows }
        ensures stands { (opens : List OpenContext) →
            ContextsStandFor self.old.contexts.rows opens →
            ContextsStandFor self.new.contexts.rows
            (context_extended context (seen_in (told_answer result)) opens) }
        ensures answer { (opens : List OpenContext) →
            ContextsStandFor self.old.contexts.rows opens →
            IfOk result (λ answer. answer ≡ values_or_full self.old.setting.deps
            (obs_in context opens) reads) }
        ensures err { OnErr result (self.new ≡ self.old) }
        ensures others { self.new ≡ record self.old { contexts = record self.old.contexts { rows = self.new.contexts.rows } } }
    {
        match see_reads(
            &mut self.contexts,
            context,
            reads.as_slice(),
            self.setting.deps,
        ) {
            Ok(()) => Ok(Answer::Values(reads)),
            Err(RequestError::Refused(fault)) => Ok(Answer::Refused(fault)),
            Err(RequestError::OutOfMemory) => Err(AllocError),
        }
    }
}
