//! All tenants of a cluster in one process.
ghost use Rattle.std.specs.Prelude.{◌≡◌, ◌≢◌, ◌<◌, ℕ, true, false, is_some, Err, IfOk, IfSome, IfNone, IsOk, IsTrue, IsFalse, None, Ok, OnErr, OnOk, Some, length, map, nat_le, nat_lt};
ghost use Rattle.cops_types.specs.TenantConfig.{TenantConfig, tenant_config};
ghost use Rattle.cops_node.specs.Clusters.{IsCluster, shape_of};
ghost use Rattle.cops_node.specs.Parts.{AuditFits, site_in};
ghost use Rattle.cops_model.specs.Session.{new_session};
ghost use Rattle.cops_model.specs.Carrier.{new_carrier};
ghost use Rattle.cops_repl.specs.Stands.{RunsIn};
ghost use Rattle.cops_types.specs.HeadLines.{is_tenant};
ghost use Rattle.cops_types.specs.Key.{is_key};
ghost use Rattle.cops_types.specs.OpenSlots.{admission_refusal, open_at};
ghost use Rattle.cops_types.specs.RequestErrors.{IfRefusal, OnRefusal, fault_told};
ghost use Rattle.cops_types.specs.declared.faults.Fault.TheVariants.{BadKey, OutOfMemory, UnknownTenant};
ghost use Rattle.cops_types.specs.declared.request_errors.RequestError.TheVariants.{OutOfMemory as Lacking};
ghost use Rattle.std.specs.List.{AllByRecursion, list_all};
ghost use Rattle.std.specs.Option.{option_copied};
ghost use Rattle.cops_model.specs.Cluster.{Actor as Solo, SoloCluster, actor_step, actor_steps, cluster_step, goes_on, has_node, has_stream, most_steps, reply_of_collect};
ghost use Rattle.cops_model.specs.Setups.{config_in, is_open_at, next_slot};
ghost use Rattle.cops_model.specs.declared.acts.Act.TheVariants as acts;
ghost use Rattle.cops_model.specs.declared.replies.Reply.TheVariants.{Refused};
ghost use Rattle.cops_script.specs.Acting.{HasActed, IsNew, IsSparedReply, TellsExactly, told_act};
ghost use Rattle.cops_script.specs.GoodHeads.{is_good};
ghost use Rattle.cops_world.specs.ActorTables.{actor_place};
ghost use Rattle.cops_world.specs.ActorsStand.{ActorStandsFor, RunsAt};
ghost use Rattle.cops_world.specs.Deeds.{DeedLacks, IsRefusalOf, deed_step};
ghost use Rattle.cops_model.specs.Lacks.{Lacks, StepStops, StepsStop};
ghost use Rattle.cops_world.specs.Trails.{audited_at};
ghost use Rattle.cops_world.specs.Worlds.{Admits, AnyReply, AreSitesIn, ClusterStandsAt, Closes, HasOpenCluster, IsLeft, KeptWorld, Leaves, Moves, StaysOpen, open_setup, join_step, world_of};
ghost use Rattle.cops_script.specs.Sizes.{HasSizes};

use crate::actor_table::ActorTable;
use crate::actors::{Actor, ActorId, Deed, Keys};
use crate::guesses::Guesses;
use crate::own_sessions::OwnSession;
use crate::{Act, ByteSlice, ByteSlices, Event, Reply};
use cops_node::{AuditRow, Cluster0, Node, NodeCall, NodeId, NodeReply, Nodes};
use cops_repl::Carrier;
use cops_script::Tenancy;
use cops_session::Session;
use cops_types::{Config, Fault, Key, Name, OpenTenants, RequestError, Seeds, Tenant, Value};
use std::alloc::{AllocError, Global};
use std::marker::Model;
use std::mem;

/// The most tenants that may be open at once. No slot has this number.
const MOST_OPEN: u64 = 64;

/// The most bytes of a value.
const LONGEST_VALUE: usize = 4096;

/// The nodes of a cluster, and the sessions and carriers of all its tenants, which may come and go.
#[derive(Drop)]
pub struct World {
    alloc: Global,
    config: Config,
    tenants: OpenTenants,
    nodes: Cluster0,
    actors: ActorTable,
    guesses: Guesses,
}

impl Model for World {
    ghost use Rattle.cops_world.specs.Worlds.{KeptWorld, IsKeptWorld};

    ghost Value = { KeptWorld };

    ghost view = { λ w. record { setup = record { head = w.config; tenants = w.tenants }; nodes = w.nodes; table = w.actors } };

    ghost invariant = { λ w. IsKeptWorld (record { setup = record { head = w.config; tenants = w.tenants }; nodes = w.nodes; table = w.actors }) };
}

/// Parses the keys, if each is one.
fn keys_of(alloc: Global, slices: &ByteSlices) -> Result<Keys, RequestError>
    ensures keys { IfOk result (λ keys. keys ≡ slices.now) }
    ensures good { OnOk result (list_all is_key slices.now ≡ true) }
    ensures bad { OnRefusal result (list_all is_key slices.now ≡ false) }
    ensures fault { IfRefusal result (λ fault. fault ≡ BadKey) }
{
    let mut keys = Vec::new(alloc);
    let mut left = slices.again();
    while let Some(slice) = left.next_slice() {
        let key = Key::new(slice)?;
        keys.push(key)?;
    }
    Ok(Keys::of(keys))
}

/// Returns whether each of the slices is a key.
fn are_keys(slices: &ByteSlices) -> bool
    ensures { result ≡ list_all is_key slices.now }
{
    let mut left = slices.again();
    while let Some(slice) = left.next_slice() {
        if Key::new(slice).is_err() {
            return false;
        }
    }
    true
}

/// The answer to an act that failed.
fn refused_with(error: RequestError) -> Result<Reply, AllocError>
    ensures reply { IfOk result (λ reply. reply ≡ Refused (fault_told error)) }
    ensures spared { IfOk result (λ _. error ≢ Lacking) }
    ensures err { OnErr result (error ≡ Lacking) }
{
    match error {
        RequestError::Refused(fault) => Ok(Reply::Refused(fault)),
        RequestError::OutOfMemory => Err(AllocError),
    }
}

/// A session of a tenant at a data centre, as an actor.
fn new_session(
    alloc: Global,
    config: &Config,
    tenant: &Tenant,
    slot: u64,
    dc: u64,
) -> Result<Actor, AllocError>
    requires dc { dc < config.now.data_centres }
    requires shards { 0 < config.now.shards }
    ensures stands { IfOk result (λ actor. ActorStandsFor (tenant_config config.now tenant.now)
        actor (Solo.OfSession (new_session dc 1))) }
    ensures runs { IfOk result (RunsAt (shape_of config.now) slot) }
{
    let session = Session::of_tenant(alloc, config, tenant, slot, dc);
    Ok(Actor::OfSession(OwnSession::new(alloc, session)?))
}

/// A carrier from a node to another data centre, as an actor.
fn new_carrier(config: &Config, origin: NodeId, to_dc: u64) -> Actor
    requires { RunsIn (shape_of config.now) config.now.shards
        (record { origin = origin; to_dc = to_dc }) }
    ensures stands { (tenant : TenantConfig) → tenant.shards ≡ config.now.shards →
        ActorStandsFor tenant result
        (Solo.OfCarrier (new_carrier (record { origin = origin; to_dc = to_dc }))) }
    ensures runs { (slot : ℕ) → RunsAt (shape_of config.now) slot result }
{
    Actor::OfCarrier(Carrier::new(config, origin, to_dc))
}

/// Returns whether the actor goes on after a step with this answer.
fn goes_on(answered: &Result<Reply, AllocError>) -> bool
    ensures { result ≡ goes_on (told_act answered.now) }
{
    matches!(answered, Ok(Reply::Working | Reply::Restarted(_)))
}

/// Turns what a collection answered into a reply.
fn reply_of_collect(reply: NodeReply) -> Reply
    ensures { result ≡ reply_of_collect reply }
{
    match reply {
        NodeReply::Removed(count) => Reply::Removed(count),
        NodeReply::Refused(fault) => Reply::Refused(fault),
        _ => Reply::Refused(Fault::Torn),
    }
}

impl World {
    /// Lets a session of a tenant carry out a command.
    ///
    /// It is inlined: a command is large, and would be copied.
    #[inline(always)]
    fn ask(&mut self, slot: u64, name: &Name, deed: Deed) -> Result<Reply, AllocError>
        ensures moves { Moves AnyReply (λ config. deed_step config name.now deed)
            (world_of self.old) slot result (world_of self.new) }
        ensures lack { Leaves (DeedLacks name.now deed) (world_of self.old) slot result
            (world_of self.new) }
    {
        let id = ActorId { slot, name: *name };
        let cell = Guesses::cell_of(&id);
        let Some(place) = self.actors.place_of(self.guesses.guess(cell), &id) else {
            return Ok(Reply::Refused(Fault::UnknownName));
        };
        self.guesses.note(cell, place);
        let actor = self.actors.actor_mut(place, &id);
        actor.act(self.alloc, deed)
    }

    /// Creates a context of a session.
    #[inline(never)]
    fn create(&mut self, slot: u64, name: &Name) -> Result<Reply, AllocError>
        ensures moves { Moves AnyReply (λ config. cluster_step config (acts.Create name.now))
            (world_of self.old) slot result (world_of self.new) }
        ensures lack { Leaves (λ config. Lacks config (acts.Create name.now))
            (world_of self.old) slot result (world_of self.new) }
    {
        self.ask(slot, name, Deed::Create)
    }

    /// Deletes a context of a session.
    #[inline(never)]
    fn delete(&mut self, slot: u64, name: &Name, number: u64) -> Result<Reply, AllocError>
        ensures moves { Moves AnyReply (λ config. cluster_step config (acts.Delete name.now number))
            (world_of self.old) slot result (world_of self.new) }
        ensures lack { Leaves (λ config. Lacks config (acts.Delete name.now number))
            (world_of self.old) slot result (world_of self.new) }
    {
        self.ask(slot, name, Deed::Delete(number))
    }

    /// Shows the two lists of a context of a session.
    #[inline(never)]
    fn show(&mut self, slot: u64, name: &Name, number: u64) -> Result<Reply, AllocError>
        ensures moves { Moves AnyReply (λ config. cluster_step config (acts.Show name.now number))
            (world_of self.old) slot result (world_of self.new) }
        ensures lack { Leaves (λ config. Lacks config (acts.Show name.now number))
            (world_of self.old) slot result (world_of self.new) }
    {
        self.ask(slot, name, Deed::Show(number))
    }

    /// Returns whether a tenant is open at a slot.
    fn has_tenant(&self, slot: u64) -> bool
        ensures { result ≡ is_open_at self.now.setup slot }
    {
        self.tenants.tenant(slot).is_some()
    }

    /// Returns the tenant that is open at a slot.
    fn tenant(&self, slot: u64) -> &Tenant
        requires { IsTrue (is_open_at self.now.setup slot) }
        ensures there { open_at slot self.now.setup.tenants ≡ Some result.now }
        ensures good { IsTrue (is_tenant result.now) }
        ensures tabled { slot < self.now.table.slots }
    {
        self.tenants.tenant_in(slot)
    }

    /// Returns whether a tenant has as many actors as it may.
    fn is_full(&self, slot: u64) -> bool
        requires { IsTrue (is_open_at self.now.setup slot) }
        ensures { result
            ≡ nat_le (config_in self.now.setup slot).quota.actors ((world_of self.now).count slot) }
    {
        let tenant = self.tenant(slot);
        self.actors.count(slot) as u64 >= tenant.quota.actors
    }

    /// Returns whether an actor has this name.
    fn has_actor(&self, id: &ActorId) -> bool
        ensures { result ≡ is_some ((world_of self.now).actors id.now) }
    {
        self.actors.has(id)
    }

    /// Returns why a new actor may not join: its name is taken, or its tenant has as many as it may.
    fn refuses(&self, id: ActorId) -> Option<Fault>
        requires { IsTrue (is_open_at self.now.setup id.slot) }
        ensures refused { IfSome result
            (λ fault. (solo : Solo) (reply : Reply) → Moves AnyReply (join_step id.name solo reply)
            (world_of self.now) id.slot (Ok (Refused fault)) (world_of self.now)) }
        ensures spared { IfSome result (λ fault. fault ≢ OutOfMemory) }
        ensures free { IfNone result ((world_of self.now).actors id ≡ None) }
        ensures room { IfNone result (nat_le (config_in self.now.setup id.slot).quota.actors
            ((world_of self.now).count id.slot) ≡ false) }
    {
        if self.has_actor(&id) {
            return Some(Fault::NameTaken);
        }
        if self.is_full(id.slot) {
            return Some(Fault::ActorsFull);
        }
        None
    }

    /// Returns why a new actor may not join, if its tenant has as many as it may. Looks up no name
    /// otherwise.
    fn refuses_if_full(&self, id: ActorId) -> Option<Fault>
        requires { IsTrue (is_open_at self.now.setup id.slot) }
        ensures refused { IfSome result
            (λ fault. (solo : Solo) (reply : Reply) → Moves AnyReply (join_step id.name solo reply)
            (world_of self.now) id.slot (Ok (Refused fault)) (world_of self.now)) }
        ensures spared { IfSome result (λ fault. fault ≢ OutOfMemory) }
        ensures room { IfNone result (nat_le (config_in self.now.setup id.slot).quota.actors
            ((world_of self.now).count id.slot) ≡ false) }
    {
        if self.is_full(id.slot) {
            return self.refuses(id);
        }
        None
    }

    /// Adds a new actor, whose tenant may have one more, unless its name is taken. Returns why it may
    /// not join, if so. Looks up the name once.
    fn join(&mut self, id: ActorId, actor: Actor) -> Result<Option<Fault>, AllocError>
        requires slot { IsTrue (is_open_at self.old.setup id.slot) }
        requires runs { RunsAt (shape_of self.old.setup.head) id.slot actor }
        requires room { nat_le (config_in self.old.setup id.slot).quota.actors
            ((world_of self.old).count id.slot) ≡ false }
        ensures joined { IfOk result (λ refusal. IfNone refusal ((solo : Solo) (reply : Reply) →
            ActorStandsFor (config_in self.old.setup id.slot) actor solo →
            Moves AnyReply (join_step id.name solo reply) (world_of self.old) id.slot (Ok reply)
            (world_of self.new))) }
        ensures refused { IfOk result
            (λ refusal. IfSome refusal (λ fault. (solo : Solo) (reply : Reply) →
            Moves AnyReply (join_step id.name solo reply) (world_of self.old) id.slot
            (Ok (Refused fault)) (world_of self.new))) }
        ensures spared { IfOk result (λ refusal. IfSome refusal (λ fault. fault ≢ OutOfMemory)) }
        ensures err { OnErr result (world_of self.new ≡ world_of self.old) }
        ensures free { OnErr result ((world_of self.old).actors id ≡ None) }
    {
        let joined = self.actors.put_new(&mut self.guesses, id, actor)?;
        if joined {
            return Ok(None);
        }
        Ok(Some(Fault::NameTaken))
    }

    /// Opens a session of a tenant at a data centre.
    #[inline(never)]
    fn open(&mut self, slot: u64, name: &Name, dc: u64) -> Result<Reply, AllocError>
        requires { IsTrue (is_open_at self.old.setup slot) }
        ensures moves { Moves AnyReply (λ config. cluster_step config (acts.Open name.now dc))
            (world_of self.old) slot result (world_of self.new) }
        ensures lack { Leaves (λ config. Lacks config (acts.Open name.now dc))
            (world_of self.old) slot result (world_of self.new) }
    {
        if dc >= self.config.data_centres {
            return Ok(Reply::Refused(Fault::NoSuchPlace));
        }
        if let Some(fault) = self.refuses(ActorId { slot, name: *name }) {
            return Ok(Reply::Refused(fault));
        }
        let tenant = self.tenant(slot);
        let session = new_session(self.alloc, &self.config, tenant, slot, dc)?;
        match self.join(ActorId { slot, name: *name }, session) {
            Ok(None) => Ok(Reply::Opened),
            Ok(Some(taken)) => Ok(Reply::Refused(taken)),
            Err(error) => Err(error),
        }
    }

    /// Returns whether there is a node of this id.
    fn has_node(&self, dc: u64, shard: u64) -> bool
        ensures { (config : TenantConfig) → HasSizes config self.now.setup.head →
            result ≡ has_node config dc shard }
    {
        dc < self.config.data_centres && shard < self.config.shards
    }

    /// Returns whether there is a node of this id, and this data centre, which is another one.
    fn has_stream(&self, origin: NodeId, to_dc: u64) -> bool
        ensures { (config : TenantConfig) → HasSizes config self.now.setup.head →
            result ≡ has_stream config origin.dc origin.shard to_dc }
    {
        self.has_node(origin.dc, origin.shard)
            && to_dc < self.config.data_centres
            && origin.dc != to_dc
    }

    /// Begins a carrier of a tenant from a node to another data centre.
    #[inline(never)]
    fn carry(
        &mut self,
        slot: u64,
        name: &Name,
        origin: NodeId,
        to_dc: u64,
    ) -> Result<Reply, AllocError>
        requires { IsTrue (is_open_at self.old.setup slot) }
        ensures moves { Moves AnyReply
            (λ config. cluster_step config (acts.Carry name.now origin.dc origin.shard to_dc))
            (world_of self.old) slot result (world_of self.new) }
        ensures lack { Leaves
            (λ config. Lacks config (acts.Carry name.now origin.dc origin.shard to_dc))
            (world_of self.old) slot result (world_of self.new) }
    {
        if !self.has_stream(origin, to_dc) {
            return Ok(Reply::Refused(Fault::NoSuchPlace));
        }
        if let Some(fault) = self.refuses_if_full(ActorId { slot, name: *name }) {
            return Ok(Reply::Refused(fault));
        }
        let carrier = new_carrier(&self.config, origin, to_dc);
        match self.join(ActorId { slot, name: *name }, carrier) {
            Ok(None) => Ok(Reply::Started),
            Ok(Some(taken)) => Ok(Reply::Refused(taken)),
            Err(error) => Err(error),
        }
    }

    /// Returns the place of an actor: its cached index, if that is right. Caches what it finds.
    fn place_of(&mut self, id: &ActorId) -> Option<usize>
        ensures same { self.new ≡ self.old }
        ensures place { IfSome result (λ place. Some place ≡ actor_place id.now self.old.table) }
        ensures nobody { IfNone result ((world_of self.old).actors id.now ≡ None) }
    {
        let cell = Guesses::cell_of(id);
        let place = self.actors.place_of(self.guesses.guess(cell), id)?;
        self.guesses.note(cell, place);
        Some(place)
    }

    /// Takes a step of the actor at a place, where it stays, also if it has ended.
    fn step_at(&mut self, place: usize, id: &ActorId, moment: u64) -> Result<Reply, AllocError>
        requires slot { IsTrue (is_open_at self.old.setup id.now.slot) }
        requires place { Some place ≡ actor_place id.now self.old.table }
        ensures moves { (left : KeptWorld) → IsLeft id.now self.new left →
            Moves IsSparedReply (λ config. actor_step config id.now.name moment)
            (world_of self.old) id.now.slot result (world_of left) }
        ensures lack { (left : KeptWorld) → IsLeft id.now self.new left →
            Leaves (λ config. StepStops config id.now.name moment)
            (world_of self.old) id.now.slot result (world_of left) }
        ensures goes_on { goes_on (told_act result) ≡ true → IsLeft id.now self.new self.new }
        ensures place { Some place ≡ actor_place id.now self.new.table }
        ensures setup { self.new.setup ≡ self.old.setup }
    {
        let actor = self.actors.actor_mut(place, id);
        actor.step(&mut self.nodes, id.slot, moment)
    }

    /// Removes the actor at a place if it is a carrier that has ended.
    fn leave(&mut self, place: usize, id: &ActorId)
        requires slot { IsTrue (is_open_at self.old.setup id.now.slot) }
        requires place { Some place ≡ actor_place id.now self.old.table }
        ensures { IsLeft id.now self.old self.new }
    {
        if self.actors.has_ended(place, id) {
            self.actors.take_out(place, id);
        }
    }

    /// Takes steps of an actor at one timestamp until it has answered, at most `more` after the first. It
    /// can have ended only if it has answered: an answer that is kept meanwhile is copied.
    #[inline(never)]
    fn steps(
        &mut self,
        slot: u64,
        name: &Name,
        moment: u64,
        mut more: u64,
    ) -> Result<Reply, AllocError>
        requires { IsTrue (is_open_at self.old.setup slot) }
        ensures moves { Moves IsSparedReply (λ config. actor_steps more config name.now moment)
            (world_of self.old) slot result (world_of self.new) }
        ensures lack { Leaves (λ config. StepsStop more config name.now moment)
            (world_of self.old) slot result (world_of self.new) }
    {
        let id = ActorId { slot, name: *name };
        let Some(place) = self.place_of(&id) else {
            return Ok(Reply::Refused(Fault::UnknownName));
        };
        loop {
            let answered = self.step_at(place, &id, moment);
            if !goes_on(&answered) {
                self.leave(place, &id);
                return answered;
            }
            if more == 0 {
                return answered;
            }
            mem::forget(answered);
            more -= 1;
        }
    }

    /// Collects at a node.
    #[inline(never)]
    fn collect(&mut self, slot: u64, id: NodeId, moment: u64) -> Result<Reply, AllocError>
        requires { IsTrue (is_open_at self.old.setup slot) }
        ensures moves { Moves AnyReply
            (λ config. cluster_step config (acts.Collect id.dc id.shard moment))
            (world_of self.old) slot result (world_of self.new) }
        ensures lack { Leaves (λ config. Lacks config (acts.Collect id.dc id.shard moment))
            (world_of self.old) slot result (world_of self.new) }
    {
        if !self.has_node(id.dc, id.shard) {
            return Ok(Reply::Refused(Fault::NoSuchPlace));
        }
        match self.nodes.step(id, slot, moment, NodeCall::Collect) {
            Ok(reply) => Ok(reply_of_collect(reply)),
            Err(error) => Err(error),
        }
    }

    /// Returns the actor of a name.
    fn actor(&self, slot: u64, name: &Name) -> Option<&Actor>
        ensures { option_copied result
            ≡ (world_of self.now).actors (record { slot = slot; name = name.now }) }
    {
        self.actors.actor(&ActorId { slot, name: *name })
    }

    /// Returns why a put is refused, if it is. Allocates nothing.
    #[inline(never)]
    fn put_refusal(
        &self,
        slot: u64,
        name: &Name,
        number: u64,
        key: &Key,
        value: &ByteSlice,
    ) -> Option<Fault>
        requires { IsTrue (is_key key.now) }
        ensures { (cluster : SoloCluster) → ClusterStandsAt (world_of self.now) slot cluster →
            IsRefusalOf (config_in self.now.setup slot)
            (acts.Put name.now number key.now value.now) cluster result }
    {
        if value.as_slice().len() > LONGEST_VALUE {
            return Some(Fault::ValueTooLong);
        }
        match self.actor(slot, name) {
            Some(actor) => actor.put_refusal(number, key),
            None => Some(Fault::UnknownName),
        }
    }

    /// Begins a put of a session, if the key and the value are valid.
    #[inline(never)]
    fn put(
        &mut self,
        slot: u64,
        name: &Name,
        number: u64,
        key: &ByteSlice,
        value: &ByteSlice,
    ) -> Result<Reply, AllocError>
        ensures moves { Moves AnyReply
            (λ config. cluster_step config (acts.Put name.now number key.now value.now))
            (world_of self.old) slot result (world_of self.new) }
        ensures lack { Leaves (λ config. Lacks config (acts.Put name.now number key.now value.now))
            (world_of self.old) slot result (world_of self.new) }
    {
        let key = match Key::new(key.as_slice()) {
            Ok(key) => key,
            Err(fault) => return Ok(Reply::Refused(fault)),
        };
        match Value::new(self.alloc, value.as_slice()) {
            Ok(value) => self.ask(slot, name, Deed::Put(number, key, value)),
            Err(error) => match self.put_refusal(slot, name, number, &key, value) {
                Some(refusal) => Ok(Reply::Refused(refusal)),
                None => refused_with(error),
            },
        }
    }

    /// Returns why a get transaction is refused, if it is. Allocates nothing.
    #[inline(never)]
    fn get_refusal(&self, slot: u64, name: &Name, number: u64, keys: &ByteSlices) -> Option<Fault>
        requires { nat_lt (length keys.now) 1 ≡ false }
        ensures { (cluster : SoloCluster) → ClusterStandsAt (world_of self.now) slot cluster →
            IsRefusalOf (config_in self.now.setup slot)
            (acts.Get name.now number keys.now) cluster result }
    {
        if !are_keys(keys) {
            return Some(Fault::BadKey);
        }
        match self.actor(slot, name) {
            Some(actor) => actor.get_refusal(number, keys),
            None => Some(Fault::UnknownName),
        }
    }

    /// Begins a get transaction of a session, if there are keys and each is valid.
    #[inline(never)]
    fn get(
        &mut self,
        slot: u64,
        name: &Name,
        number: u64,
        keys: &ByteSlices,
    ) -> Result<Reply, AllocError>
        ensures moves { Moves AnyReply
            (λ config. cluster_step config (acts.Get name.now number keys.now))
            (world_of self.old) slot result (world_of self.new) }
        ensures lack { Leaves (λ config. Lacks config (acts.Get name.now number keys.now))
            (world_of self.old) slot result (world_of self.new) }
    {
        if keys.is_empty() {
            return Ok(Reply::Refused(Fault::Syntax));
        }
        match keys_of(self.alloc, keys) {
            Ok(keys) => self.ask(slot, name, Deed::Get(number, keys)),
            Err(RequestError::Refused(fault)) => Ok(Reply::Refused(fault)),
            Err(error) => match self.get_refusal(slot, name, number, keys) {
                Some(fault) => Ok(Reply::Refused(fault)),
                None => refused_with(error),
            },
        }
    }

    /// Returns more steps than any request of a session or any carrier takes.
    fn most_steps(&self, slot: u64) -> u64
        requires { IsTrue (is_open_at self.now.setup slot) }
        ensures { result ≡ most_steps (config_in self.now.setup slot) }
    {
        let deps = self.tenant(slot).quota.deps;
        (self.config.restarts + 1) * (2 * 32 + 1) + deps + 3
    }

    /// One event: it acts on its own tenant's cluster and on no other. The error: memory was refused.
    /// Nothing changed then, unless a step was taken: its request or its carrier is over, and what the
    /// calls did stands.
    ///
    /// On a slot without a tenant it is `UnknownTenant`, and nothing changes.
    pub fn apply(&mut self, event: &Event) -> Result<Reply, AllocError>
        ensures acted { HasActed open_setup HasOpenCluster self.old event.now result self.new }
        ensures vacant { IsFalse (is_open_at self.old.setup event.now.slot) →
            (result ≡ Ok (Refused UnknownTenant)) × (self.new ≡ self.old) }
    {
        Tenancy::act(self, event.slot, &event.act)
    }

    /// Gives a slot to a tenant, which begins with an empty cluster and without actors: at all nodes, or
    /// at none. Is refused with `NameTaken` if an open tenant has that name or token, then with `NoSlot`
    /// if the slot has a tenant or is none of the 64. Memory can run out only otherwise.
    pub fn admit_at(&mut self, slot: u64, tenant: Tenant) -> Result<(), RequestError>
        requires { IsTrue (is_tenant tenant) }
        ensures ok { OnOk result (Admits slot tenant self.old self.new) }
        ensures refused { IfSome (admission_refusal self.old.setup.tenants slot tenant)
            (λ fault. result ≡ Err (RequestError.Refused fault)) }
        ensures faults { IfRefusal result
            (λ fault. admission_refusal self.old.setup.tenants slot tenant ≡ Some fault) }
        ensures err { OnErr result (StaysOpen self.old self.new) }
    {
        let first_clock = tenant.first_clock;
        let quota = tenant.quota;
        self.tenants.admit_at(slot, tenant)?;
        if let Err(error) = self.nodes.admit(slot, first_clock, quota) {
            let _closed = self.tenants.close(slot);
            return Err(error);
        }
        Ok(())
    }

    /// Returns the least free slot, or the number of all slots if none is free.
    fn next_slot(&self) -> u64
        ensures { result ≡ next_slot self.now.setup.tenants }
    {
        match self.tenants.least_free() {
            Some(slot) => slot,
            None => MOST_OPEN,
        }
    }

    /// Gives the least free slot to a tenant, as `admit_at` does, and returns it.
    pub fn admit(&mut self, tenant: Tenant) -> Result<u64, RequestError>
        requires { IsTrue (is_tenant tenant) }
        ensures least { IfOk result (λ slot. slot ≡ next_slot self.old.setup.tenants) }
        ensures ok { IfOk result (λ slot. Admits slot tenant self.old self.new) }
        ensures refused { IfSome
            (admission_refusal self.old.setup.tenants (next_slot self.old.setup.tenants) tenant)
            (λ fault. result ≡ Err (RequestError.Refused fault)) }
        ensures faults { IfRefusal result (λ fault. admission_refusal self.old.setup.tenants
            (next_slot self.old.setup.tenants) tenant ≡ Some fault) }
        ensures err { OnErr result (StaysOpen self.old self.new) }
    {
        let slot = self.next_slot();
        match self.admit_at(slot, tenant) {
            Ok(()) => Ok(slot),
            Err(error) => Err(error),
        }
    }

    /// Takes a slot from its tenant, and drops all of it: what the nodes have, sessions and carriers.
    /// Fails with `UnknownTenant` if it has none. Asks for no memory, and visits no other tenant's actors.
    pub fn close(&mut self, slot: u64) -> Result<(), Fault>
        ensures closed { OnOk result (Closes slot self.old self.new) }
        ensures there { IsTrue (is_open_at self.old.setup slot) → IsOk result }
        ensures vacant { IsFalse (is_open_at self.old.setup slot) → result ≡ Err UnknownTenant }
        ensures err { OnErr result (self.new ≡ self.old) }
    {
        self.tenants.close(slot)?;
        self.nodes.close(slot);
        self.actors.clear(slot);
        Ok(())
    }

    /// Returns the tenants that are open now, by slot.
    pub fn tenants(&self) -> &OpenTenants
        ensures { result.now ≡ self.now.setup.tenants }
    {
        &self.tenants
    }

    /// Creates a world of a configuration. Fails with `AllocError` if memory runs out.
    pub fn new(alloc: Global, config: Config) -> Result<Self, AllocError>
        requires { IsTrue (is_good config) }
        ensures { IfOk result (IsNew open_setup HasOpenCluster config) }
    {
        let nodes = Cluster0::new(alloc, &config)?;
        let tenants = OpenTenants::of(alloc, &config.tenants)?;
        let seeds = Seeds::of_tokens(config.tenants.as_slice());
        let actors = ActorTable::new(alloc, tenants.as_slice().len(), seeds)?;
        let guesses = Guesses::new(alloc)?;
        Ok(World {
            alloc,
            config,
            tenants,
            nodes,
            actors,
            guesses,
        })
    }

    /// Returns the configuration of the head, whoever is open now.
    pub fn config(&self) -> &Config
        ensures value { result.now ≡ self.now.setup.head }
        ensures good { IsTrue (is_good self.now.setup.head) }
    {
        &self.config
    }

    /// Returns the nodes of the configuration, by number.
    pub fn nodes(&self) -> &[Node]
        ensures value { result.now ≡ self.now.nodes.nodes }
        ensures sites { AreSitesIn self.now.setup (map site_in self.now.nodes.nodes) }
        ensures in_order { IsCluster (shape_of self.now.setup.head) self.now.nodes.nodes }
        ensures fitting { AllByRecursion AuditFits self.now.nodes.nodes }
    {
        self.nodes.nodes()
    }

    /// Returns the call at a place of a node's audit that the tenant of this slot made. A slot without a
    /// tenant has none.
    pub fn audit(&self, id: NodeId, slot: u64, place: u64) -> Option<&AuditRow>
        requires dc { id.dc < self.now.setup.head.data_centres }
        requires shard { id.shard < self.now.setup.head.shards }
        ensures shows { (cluster : SoloCluster) → ClusterStandsAt (world_of self.now) slot cluster →
            option_copied result ≡ audited_at (config_in self.now.setup slot) id place cluster }
        ensures vacant { IsFalse (is_open_at self.now.setup slot) → result ≡ None }
    {
        let cluster = &self.nodes;
        let nodes = cluster.nodes();
        let node = &nodes[(id.dc * self.config.shards + id.shard) as usize];
        node.audit(slot, place)
    }
}

impl Tenancy for World {
    ghost setup = { open_setup };

    ghost StandsFor = { HasOpenCluster };

    fn begin(alloc: Global, config: Config) -> Result<Self, AllocError> {
        World::new(alloc, config)
    }

    fn tenants(&self) -> &OpenTenants {
        World::tenants(self)
    }

    /// It is inlined, and what it calls isn't: each function between would copy the answer.
    #[inline(always)]
    fn act(&mut self, slot: u64, act: &Act) -> Result<Reply, AllocError>
        ensures moves { Moves (TellsExactly act.now) (λ config. cluster_step config act.now)
            (world_of self.old) slot result (world_of self.new) }
        ensures lack { Leaves (λ config. Lacks config act.now) (world_of self.old) slot result
            (world_of self.new) }
        ensures vacant { IsFalse (is_open_at self.old.setup slot) →
            (result ≡ Ok (Refused UnknownTenant)) × (self.new ≡ self.old) }
    {
        if !self.has_tenant(slot) {
            return Ok(Reply::Refused(Fault::UnknownTenant));
        }
        match act {
            Act::Open(name, dc) => self.open(slot, name, *dc),
            Act::Create(name) => self.create(slot, name),
            Act::Delete(name, number) => self.delete(slot, name, *number),
            Act::Put(name, number, key, value) => self.put(slot, name, *number, key, value),
            Act::Get(name, number, keys) => self.get(slot, name, *number, keys),
            Act::Show(name, number) => self.show(slot, name, *number),
            Act::Carry(name, dc, shard, to_dc) => {
                let origin = NodeId {
                    dc: *dc,
                    shard: *shard,
                };
                self.carry(slot, name, origin, *to_dc)
            }
            Act::Step(name, moment) => self.steps(slot, name, *moment, 0),
            Act::Done(name, moment) => {
                let more = self.most_steps(slot);
                self.steps(slot, name, *moment, more)
            }
            Act::Collect(dc, shard, moment) => {
                let id = NodeId {
                    dc: *dc,
                    shard: *shard,
                };
                self.collect(slot, id, *moment)
            }
        }
    }

    fn admit(&mut self, tenant: Tenant) -> Result<u64, RequestError> {
        World::admit(self, tenant)
    }

    fn close(&mut self, slot: u64) {
        let _closed = World::close(self, slot);
    }
}
