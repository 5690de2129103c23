//! Each allocation may fail: the same call again, or the same request again, is as if it had not
//! been. Run with the Nth allocation failing, for each N.
ghost use Rattle.cops_session.specs.Kept.{IsOfSizes};

use super::sessions::{assert_lists, context, found, get, put, session, step, try_step};
use crate::entries::key;
use crate::pairs::pair;
use cops_handles::Handle;
use cops_node::NodeReply;
use cops_session::{Answer, Contexts, Progress, Session};
use cops_types::{Deps, Version};
use std::alloc::Global;
use std::process::Abort;

/// Returns the two reads of a transaction over x and y, unless memory ran out.
fn reads_both(
    rt: &impl Abort,
    alloc: Global,
    session: &mut Session,
    context: Handle<Contexts>,
) -> bool
    requires { IsOfSizes 1 1 session.old.setting }
    ensures { IsOfSizes 1 1 session.new.setting }
{
    let request = get(rt, session, context, &[key(rt, b"x"), key(rt, b"y")]);
    let x = found(rt, alloc, Version::of(1, 0), Deps::empty(alloc));
    match try_step(rt, session, request, 0, x) {
        Ok(Progress::Working) => {}
        Ok(_) => panic!(rt; "one key is left"),
        Err(_) => return false,
    }
    let y = found(rt, alloc, Version::of(2, 0), Deps::empty(alloc));
    match try_step(rt, session, request, 0, y) {
        Ok(Progress::Done(Answer::Values(reads))) => {
            assert_eq!(rt; reads.len(), 2);
            true
        }
        Ok(_) => panic!(rt; "both keys are read"),
        Err(_) => false,
    }
}

#[test]
fn refused_memory_changes_nothing(rt: HostRuntime) {
    let mut session = session(&rt, rt.alloc(), 1);
    let handle = context(&rt, &mut session);
    assert_eq!(rt; handle.number(), 1);
    if !reads_both(&rt, rt.alloc(), &mut session, handle) {
        assert_lists(&rt, &session, handle, &[], &[]);
        assert!(rt; reads_both(&rt, rt.alloc(), &mut session, handle));
    }
    let x = pair(&rt, b"x", 1, 0);
    let y = pair(&rt, b"y", 2, 0);
    assert_lists(&rt, &session, handle, &[x, y], &[x, y]);
    let request = put(&rt, rt.alloc(), &mut session, handle, b"z");
    let reply = NodeReply::Stored(Version::of(3, 0));
    let stored = step(&rt, &mut session, request, 0, reply);
    assert!(rt; matches!(stored, Progress::Done(Answer::Stored(_))));
    let z = pair(&rt, b"z", 3, 0);
    assert_lists(&rt, &session, handle, &[x, y, z], &[z]);
}
