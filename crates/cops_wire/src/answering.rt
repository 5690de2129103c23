//! What the requests of a connection are answered by: a client's session, or one refusal for all.
ghost use Rattle.std.specs.Prelude.{◌≡◌};
ghost use Rattle.cops_session.specs.Kept.{IsOfSizes};
ghost use Rattle.cops_wire.specs.Clients.{ClientAnswers};
ghost use Rattle.cops_wire.specs.Running.{Asks, PutsFrame};
ghost use Rattle.cops_wire.specs.Serving.{RefusesWith};
ghost use Rattle.cops_wire.specs.declared.messages.Message.{Message};

use crate::moments::Moments;
use crate::reading::Request;
use crate::requests::Client;
use crate::writing::push_refusal;
use cops_node::Nodes;
use cops_types::{Fault, Key};
use std::alloc::{AllocError, Global};

/// Answers requests, one after another.
pub(crate) trait Answering {
    /// Holds of a value that can answer.
    ghost CanAnswer: { Self → Type 0 };

    /// Relates a value, a request, its reply, and the value after it.
    ghost Answers: { Self → Message → Message → Self → Type 0 };

    /// Answers a request and appends its reply. The keys are those of a get transaction.
    ///
    /// On `Err` nothing was appended; the request may still have taken effect.
    fn reply_to(
        &mut self,
        alloc: Global,
        request: Request,
        keys: &[Key],
        out: &mut Vec<u8>,
    ) -> Result<(), AllocError>
        requires ready { CanAnswer self.old }
        ensures answered { (message : Message) → Asks request.entry keys.now message →
            (reply : Message) × Answers self.old message reply self.new
            × PutsFrame result out.old.items out.new.items reply }
        ensures ready { CanAnswer self.new };
}

impl<N: Nodes, M: Moments> Answering for Client<'_, N, M> {
    ghost CanAnswer = { λ client. IsOfSizes (N.shape client.nodes.now).data_centres (N.shape client.nodes.now).shards client.session.now.setting };

    ghost Answers = { ClientAnswers N.shape N.Answers M.Gives };

    fn reply_to(
        &mut self,
        alloc: Global,
        request: Request,
        keys: &[Key],
        out: &mut Vec<u8>,
    ) -> Result<(), AllocError> {
        self.answer(alloc, request, keys, out)
    }
}

/// Refuses each request with the same fault.
#[derive(Drop)]
pub(crate) struct Refusing {
    pub(crate) fault: Fault,
}

impl Answering for Refusing {
    ghost CanAnswer = { λ refusing. Unit {0} };

    ghost Answers = { λ old request reply new. RefusesWith old.fault tt request reply tt × (new ≡ old) };

    fn reply_to(
        &mut self,
        _alloc: Global,
        _request: Request,
        _keys: &[Key],
        out: &mut Vec<u8>,
    ) -> Result<(), AllocError> {
        push_refusal(out, self.fault)
    }
}
