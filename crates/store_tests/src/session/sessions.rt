ghost use Rattle.cops_session.specs.Kept.{IsOfSizes};

use super::rounds::on_x;
use crate::context::lists;
use crate::entries::{key, value};
use crate::one_tenant::{self, one_node};
use cops_handles::Handle;
use cops_node::{NodeCall, NodeId, NodeReply, Nodes};
use cops_session::{Answer, Contexts, Progress, Running, Session};
use cops_types::{Deps, Fault, Found, FoundParts, Key, Pair, RequestError, Version};
use std::alloc::{AllocError, Global};
use std::process::Abort;

/// Nodes that answer once, and need no memory for it.
#[derive(Drop)]
struct Once {
    reply: Option<NodeReply>,
}

impl Nodes for Once {
    ghost use Rattle.std.specs.Prelude.{◌≡◌, ◌⊎◌, Some, None};

    ghost shape = { λ _. record { data_centres = 1; shards = 1 } };

    ghost Answers = { λ old _ _ _ _ reply new. (old.reply ≡ Some reply) ⊎ (old.reply ≡ None) };

    fn step(
        &mut self,
        _id: NodeId,
        _slot: u64,
        _moment: u64,
        _call: NodeCall,
    ) -> Result<NodeReply, AllocError> {
        match self.reply.take() {
            Some(reply) => Ok(reply),
            None => Ok(NodeReply::Refused(Fault::Torn)),
        }
    }
}

/// A session whose numbers begin with `first`.
pub(crate) fn session(rt: &impl Abort, alloc: Global, first: u64) -> Session
    ensures { IsOfSizes 1 1 result.setting }
{
    one_tenant::session(alloc, &one_node(rt, alloc), first)
}

/// A new context, created again if memory ran out.
pub(crate) fn context(rt: &impl Abort, session: &mut Session) -> Handle<Contexts>
    requires { IsOfSizes 1 1 session.old.setting }
    ensures { IsOfSizes 1 1 session.new.setting }
{
    match session.create_context() {
        Ok(created) => created,
        Err(error) => {
            assert!(rt; error == RequestError::OutOfMemory);
            session.create_context().expect(rt, "a second try")
        }
    }
}

/// A put, begun again if memory ran out.
pub(crate) fn put(
    rt: &impl Abort,
    alloc: Global,
    session: &mut Session,
    context: Handle<Contexts>,
    bytes: &[u8],
) -> Handle<Running>
    requires { IsOfSizes 1 1 session.old.setting }
    ensures { IsOfSizes 1 1 session.new.setting }
{
    match session.begin_put(context, key(rt, bytes), value(rt, alloc)) {
        Ok(begun) => begun,
        Err(error) => {
            assert!(rt; error == RequestError::OutOfMemory);
            let again = session.begin_put(context, key(rt, bytes), value(rt, alloc));
            again.expect(rt, "a second try")
        }
    }
}

/// A transaction, begun again if memory ran out.
pub(crate) fn get(
    rt: &impl Abort,
    session: &mut Session,
    context: Handle<Contexts>,
    keys: &[Key],
) -> Handle<Running>
    requires { IsOfSizes 1 1 session.old.setting }
    ensures { IsOfSizes 1 1 session.new.setting }
{
    match session.begin_get_trans(context, keys) {
        Ok(begun) => begun,
        Err(error) => {
            assert!(rt; error == RequestError::OutOfMemory);
            let again = session.begin_get_trans(context, keys);
            again.expect(rt, "a second try")
        }
    }
}

/// Takes a step in which the node gives this reply, unless memory ran out.
pub(crate) fn try_step(
    rt: &impl Abort,
    session: &mut Session,
    handle: Handle<Running>,
    moment: u64,
    reply: NodeReply,
) -> Result<Progress, RequestError>
    requires { IsOfSizes 1 1 session.old.setting }
    ensures { IsOfSizes 1 1 session.new.setting }
{
    let mut nodes = Once { reply: Some(reply) };
    match session.step(&mut nodes, handle, moment) {
        Ok(shown) => {
            assert!(rt; nodes.reply.is_none());
            Ok(shown)
        }
        Err(error) => {
            assert!(rt; error == RequestError::OutOfMemory);
            Err(error)
        }
    }
}

/// Does the same with memory.
pub(crate) fn step(
    rt: &impl Abort,
    session: &mut Session,
    handle: Handle<Running>,
    moment: u64,
    reply: NodeReply,
) -> Progress
    requires { IsOfSizes 1 1 session.old.setting }
    ensures { IsOfSizes 1 1 session.new.setting }
{
    try_step(rt, session, handle, moment, reply).expect(rt, "memory")
}

/// No request of this number runs.
fn assert_idle(rt: &impl Abort, session: &mut Session, handle: Handle<Running>)
    requires { IsOfSizes 1 1 session.old.setting }
    ensures { IsOfSizes 1 1 session.new.setting }
{
    let mut nodes = Once { reply: None };
    assert!(rt;
        matches!(
            session.step(&mut nodes, handle, 0),
            Err(RequestError::Refused(Fault::Idle))
        )
    );
}

pub(crate) fn found(rt: &impl Abort, alloc: Global, version: Version, deps: Deps) -> NodeReply {
    let parts = FoundParts {
        version,
        value: value(rt, alloc),
        deps,
    };
    NodeReply::Found(Found::new(alloc, parts).expect(rt, "memory"))
}

fn has_stored(shown: &Progress, version: Version) -> bool {
    match shown {
        Progress::Done(Answer::Stored(pair)) => pair.version == version,
        _ => false,
    }
}

/// No request runs, and the context has these lists.
pub(crate) fn assert_lists(
    rt: &impl Abort,
    session: &Session,
    handle: Handle<Contexts>,
    all: &[Pair],
    near: &[Pair],
) {
    assert!(rt; session.running().is_none());
    match session.context(handle) {
        Ok(context) => lists::assert_lists(rt, context, all, near),
        Err(_) => panic!(rt; "the context is open"),
    }
}

/// Puts x in the context, which gives version 1.0. Returns the number of the request.
fn put_x(
    rt: &impl Abort,
    alloc: Global,
    session: &mut Session,
    handle: Handle<Contexts>,
) -> Handle<Running>
    requires { IsOfSizes 1 1 session.old.setting }
    ensures { IsOfSizes 1 1 session.new.setting }
{
    let request = put(rt, alloc, session, handle, b"x");
    let reply = NodeReply::Stored(Version::of(1, 0));
    let stored = step(rt, session, request, 0, reply);
    assert!(rt; has_stored(&stored, Version::of(1, 0)));
    request
}

/// Returns a transaction over x and y in its second round, whose wish for x is 1.0.
fn in_second_round(
    rt: &impl Abort,
    alloc: Global,
    session: &mut Session,
    handle: Handle<Contexts>,
) -> Handle<Running>
    requires { IsOfSizes 1 1 session.old.setting }
    ensures { IsOfSizes 1 1 session.new.setting }
{
    let request = get(rt, session, handle, &[key(rt, b"x"), key(rt, b"y")]);
    assert!(rt;
        matches!(
            step(rt, session, request, 10, NodeReply::Absent),
            Progress::Working
        )
    );
    let y = found(rt, alloc, Version::of(2, 0), on_x(rt, alloc));
    assert!(rt; matches!(step(rt, session, request, 11, y), Progress::Working));
    request
}

/// Asserts why a request ended.
fn assert_refused(rt: &impl Abort, shown: Progress, fault: Fault) {
    match shown {
        Progress::Done(Answer::Refused(given)) => assert_eq!(rt; given, fault),
        _ => panic!(rt; "a refusal"),
    }
}

#[test]
fn a_version_that_is_not_yet_there_is_torn(rt: HostRuntime) {
    let mut session = session(&rt, rt.alloc(), 1);
    let handle = context(&rt, &mut session);
    let request = in_second_round(&rt, rt.alloc(), &mut session, handle);
    let reply = NodeReply::NotYet;
    let torn = step(&rt, &mut session, request, 12, reply);
    assert_refused(&rt, torn, Fault::Torn);
    assert_lists(&rt, &session, handle, &[], &[]);
    assert_idle(&rt, &mut session, request);
}

#[test]
fn another_version_is_torn(rt: HostRuntime) {
    let mut session = session(&rt, rt.alloc(), 1);
    let handle = context(&rt, &mut session);
    let request = in_second_round(&rt, rt.alloc(), &mut session, handle);
    let reply = found(&rt, rt.alloc(), Version::of(3, 0), Deps::empty(rt.alloc()));
    let torn = step(&rt, &mut session, request, 12, reply);
    assert_refused(&rt, torn, Fault::Torn);
}

#[test]
fn a_put_that_is_not_stored_is_torn(rt: HostRuntime) {
    let mut session = session(&rt, rt.alloc(), 1);
    let handle = context(&rt, &mut session);
    let request = put(&rt, rt.alloc(), &mut session, handle, b"x");
    let reply = NodeReply::Absent;
    let torn = step(&rt, &mut session, request, 12, reply);
    assert_refused(&rt, torn, Fault::Torn);
}

/// Asserts why a transaction does not begin.
fn assert_no_get(
    rt: &impl Abort,
    session: &mut Session,
    handle: Handle<Contexts>,
    keys: &[Key],
    fault: Fault,
) {
    match session.begin_get_trans(handle, keys) {
        Err(error) => assert_eq!(rt; error, RequestError::Refused(fault)),
        _ => panic!(rt; "a refusal"),
    }
}

/// Asserts why a put of y does not begin.
fn assert_no_put(
    rt: &impl Abort,
    alloc: Global,
    session: &mut Session,
    handle: Handle<Contexts>,
    fault: Fault,
) {
    match session.begin_put(handle, key(rt, b"y"), value(rt, alloc)) {
        Err(error) => assert_eq!(rt; error, RequestError::Refused(fault)),
        _ => panic!(rt; "a refusal"),
    }
}

#[test]
fn the_last_context(rt: HostRuntime) {
    let mut session = session(&rt, rt.alloc(), 18446744073709551614);
    let handle = context(&rt, &mut session);
    assert_eq!(rt; handle.number(), 18446744073709551614);
    assert!(rt;
        matches!(
            session.create_context(),
            Err(RequestError::Refused(Fault::IdsSpent))
        )
    );
}

#[test]
fn the_last_request(rt: HostRuntime) {
    let alloc = rt.alloc();
    let mut session = session(&rt, alloc, 18446744073709551614);
    let handle = context(&rt, &mut session);
    let request = put_x(&rt, alloc, &mut session, handle);
    assert_eq!(rt; request.number(), 18446744073709551614);
    assert_no_put(&rt, alloc, &mut session, handle, Fault::IdsSpent);
    assert_no_get(
        &rt,
        &mut session,
        handle,
        &[key(&rt, b"x")],
        Fault::IdsSpent,
    );
}

/// The first handle of a context in bytes.
const FIRST_CONTEXT: [u8; 9] = [0x43, 0, 0, 0, 0, 0, 0, 0, 1];

#[test]
fn a_context_is_no_request_on_the_wire(rt: HostRuntime) {
    let context: Handle<Contexts> = Handle::of_number(1);
    assert_eq!(rt; context.to_wire(), FIRST_CONTEXT);
    let request: Result<Handle<Running>, Fault> = Handle::from_wire(FIRST_CONTEXT);
    assert!(rt; matches!(request, Err(Fault::NoContext)));
}
