//! The steps of a request that runs.
ghost use Rattle.std.specs.Prelude.{◌≡◌, [], Option, Some};
ghost use Rattle.cops_types.specs.TenantConfig.{TenantConfig};
ghost use Rattle.cops_session.specs.Kept.{IsOfSizes};
ghost use Rattle.cops_model.specs.Session.{Running as SoloRunning, Session as SoloSession};
ghost use Rattle.cops_model.specs.declared.requests.Answer.{Answer as SoloAnswer};
ghost use Rattle.cops_session.specs.SessionStands.{SessionStandsFor};
ghost use Rattle.cops_wire.specs.Limits.{IsHeldOrTyped};
ghost use Rattle.cops_wire.specs.Requests.{KeepsShape, HasFewRestarts, backend, message_of_answer};
ghost use Rattle.cops_wire.specs.Running.{HasEnded, HasStepped, HasFewKeys, PutsAnswer, PutsFrame};

use crate::moments::Moments;
use crate::replies::push_reply;
use crate::writing::{push_failure, push_refusal};
use cops_node::Nodes;
use cops_session::{Progress, Session};
use cops_types::Fault;
use std::alloc::AllocError;

/// Takes a step of the running request at the next timestamp. If the request ends with it, appends its reply.
///
/// The answer is read in place.
fn step_once<N: Nodes, M: Moments>(
    session: &mut Session,
    nodes: &mut N,
    moments: &mut M,
    out: &mut Vec<u8>,
) -> Option<Result<(), AllocError>>
    requires fits { IsOfSizes (N.shape nodes.old).data_centres (N.shape nodes.old).shards
        session.old.setting }
    ensures stepped { (answer : Option SoloAnswer)
        × PutsAnswer result out.old.items out.new.items answer
        × ((config : TenantConfig) (solo : SoloSession) (running : SoloRunning) →
        SessionStandsFor config session.old solo → solo.running ≡ Some running →
        HasStepped (KeepsShape N.shape N.Answers) M.Gives config session.old.setting.slot
        (backend solo nodes.old moments.old) session.new nodes.new moments.new answer) }
    ensures setting { session.new.setting ≡ session.old.setting }
    ensures shape { N.shape nodes.new ≡ N.shape nodes.old }
{
    let moment = moments.now();
    let Some(request) = session.running() else {
        return Some(push_refusal(out, Fault::Idle));
    };
    let stepped = session.step(nodes, request, moment);
    match &stepped {
        Ok(shown) => match shown {
            Progress::Done(answer) => Some(push_reply(out, answer)),
            Progress::Working => None,
            Progress::Restarted(_) => None,
        },
        Err(error) => Some(push_failure(out, *error)),
    }
}

/// Steps the running request until it has its answer, and puts that at the end.
///
/// No request has as many steps as are allowed here: each of its attempts takes at most two a key.
pub(crate) fn finish<N: Nodes, M: Moments>(
    session: &mut Session,
    nodes: &mut N,
    moments: &mut M,
    out: &mut Vec<u8>,
) -> Result<(), AllocError>
    requires fits { IsOfSizes (N.shape nodes.old).data_centres (N.shape nodes.old).shards
        session.old.setting }
    ensures ended { (answer : SoloAnswer) × PutsFrame result out.old.items out.new.items
        (message_of_answer answer) × IsHeldOrTyped answer
        × ((config : TenantConfig) (solo : SoloSession) (running : SoloRunning) →
        HasFewRestarts config → SessionStandsFor config session.old solo →
        solo.running ≡ Some running → running.log ≡ [] → HasFewKeys running.action →
        HasEnded (KeepsShape N.shape N.Answers) M.Gives config session.old.setting.slot
        (backend solo nodes.old moments.old) session.new nodes.new moments.new answer) }
    ensures setting { session.new.setting ≡ session.old.setting }
    ensures shape { N.shape nodes.new ≡ N.shape nodes.old }
{
    for _ in 0..u64::MAX {
        if let Some(put) = step_once(session, nodes, moments, out) {
            return put;
        }
    }
    push_refusal(out, Fault::Overrun)
}
