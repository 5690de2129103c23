//! A client's connection, from its greeting to its end.
ghost use Rattle.std.specs.Prelude.{◌≡◌, ◌⊎◌, ◌^◌, ⊤, List, [], IsTrue, Err, IfErr, IfOk, OnErr};
ghost use Rattle.cops_types.specs.HeadLines.{are_sizes};
ghost use Rattle.cops_types.specs.Counts.{HasRisen};
ghost use Rattle.cops_types.specs.Sink.{sink_failures, sink_writer};
ghost use Rattle.cops_types.specs.Source.{source_failures, source_reader, source_reads};
ghost use Rattle.cops_node.specs.Clusters.{shape_of};
ghost use Rattle.cops_wire.specs.Conversation.{HasConversed, HasConversedInPart};
ghost use Rattle.cops_wire.specs.Connection.{connection_kept, connection_sink, connection_source};
ghost use Rattle.cops_wire.specs.Decoding.{KeptBytes, kept_of};
ghost use Rattle.cops_wire.specs.Greeting.{Greets, HasRisenByOrMore, IsStopped};
ghost use Rattle.cops_wire.specs.Requests.{KeepsShape};
ghost use Rattle.cops_wire.specs.declared.messages.Message.{Message};
ghost use Rattle.cops_types.specs.declared.faults.Fault.TheVariants.{UnknownTenant};
ghost use Rattle.cops_service.specs.Conversing.{Converses};
ghost use Rattle.cops_service.specs.LifeServed.{ConversesOn};

use crate::lines::{Incoming, Line, Outgoing};
use crate::residents::Site;
use crate::watching::{Stay, Watched};
use cops_node::Nodes;
use cops_types::{Config, Fault, RequestError, Sink, Source};
use cops_wire::{Connection, Ended, Moments};
use std::alloc::Global;
use std::cell::Cell;
use std::io::{Read, Write};
use std::sync::Wait;
use std::time::Clock;

/// The end of a conversation, with its reader and writer.
#[derive(Drop)]
pub(crate) struct Conversed<R, O> {
    pub(crate) ended: Result<Ended, RequestError>,
    pub(crate) source: Source<R>,
    pub(crate) sink: Sink<O>,
}

/// Greets a client, and answers its requests with a session of its tenant.
pub(crate) fn serve_client<R: Read + Drop, O: Write + Drop, N: Nodes, M: Moments>(
    alloc: Global,
    config: &Config,
    source: Source<R>,
    sink: Sink<O>,
    nodes: &mut N,
    moments: &mut M,
) -> Conversed<R, O>
    requires shape { N.shape nodes.old ≡ shape_of config.now }
    requires sizes { IsTrue (are_sizes config.now) }
    ensures conversed { IfOk result.ended
        (HasConversed (KeepsShape N.shape N.Answers) M.Gives config.now
        (R.remaining (source_reader source)) (R.remaining (source_reader result.source))
        (O.contents (sink_writer sink)) (O.contents (sink_writer result.sink))
        nodes.old nodes.new moments.old moments.new) }
    ensures front { OnErr result.ended
        (HasConversedInPart (KeepsShape N.shape N.Answers) M.Gives config.now
        (R.remaining (source_reader source))
        (O.contents (sink_writer sink)) (O.contents (sink_writer result.sink))
        nodes.old nodes.new moments.old moments.new) }

    // The error is that of a greeting, whose refusal is written, or says what stopped the conversation.
    ensures err { IfErr result.ended (λ error. ((kept : KeptBytes) × (waiting : List Message) ×
        Greets config.now.tenants config.now.data_centres
        (R.remaining (source_reader source)) (R.remaining (source_reader result.source))
        (O.contents (sink_writer sink)) (O.contents (sink_writer result.sink))
        kept waiting (Err error))
        ⊎ IsStopped error ⊤
        (HasRisen (source_failures source) (source_failures result.source)
        ⊎ HasRisenByOrMore (source_reads source) (source_reads result.source) (2 ^ 32))
        (HasRisen (sink_failures sink) (sink_failures result.sink))) }
    ensures shape { N.shape nodes.new ≡ N.shape nodes.old }
{
    let mut connection = Connection::new(alloc, source, sink);
    let ended = connection.converse(config, nodes, moments);
    let (source, sink) = connection.into_inner();
    Conversed {
        ended,
        source,
        sink,
    }
}

/// Does the same over a socket.
pub(crate) fn serve_line<C: Clock, N: Nodes, M: Moments>(
    alloc: Global,
    config: &Config,
    line: &Line<'_, C>,
    nodes: &mut N,
    moments: &mut M,
) -> Result<Ended, RequestError>
    requires shape { N.shape nodes.old ≡ shape_of config.now }
    requires sizes { IsTrue (are_sizes config.now) }
    ensures converses { Converses (KeepsShape N.shape N.Answers) M.Gives config.now
        nodes.old nodes.new moments.old moments.new }
    ensures shape { N.shape nodes.new ≡ N.shape nodes.old }
{
    let source = Source::new(Incoming { line });
    let sink = Sink::new(Outgoing { line });
    let conversed = serve_client(alloc, config, source, sink, nodes, moments);
    conversed.ended
}

/// Greets a client and answers its requests, until its reader says that the life of its tenant is over. Then refuses all others.
fn converse_in_life<R: Read, O: Write, N: Nodes, M: Moments>(
    connection: &mut Connection<R, O>,
    config: &Config,
    is_over: &Cell<bool>,
    nodes: &mut N,
    moments: &mut M,
) -> Result<Ended, RequestError>
    requires first { connection_kept connection.old ≡ kept_of [] }
    requires shape { N.shape nodes.old ≡ shape_of config.now }
    requires sizes { IsTrue (are_sizes config.now) }
    ensures converses { Converses (KeepsShape N.shape N.Answers) M.Gives config.now
        nodes.old nodes.new moments.old moments.new }
    ensures served { IfOk result (ConversesOn (KeepsShape N.shape N.Answers) M.Gives config.now
        UnknownTenant
        (R.remaining (source_reader (connection_source connection.old)))
        (R.remaining (source_reader (connection_source connection.new)))
        (O.contents (sink_writer (connection_sink connection.old)))
        (O.contents (sink_writer (connection_sink connection.new)))
        nodes.old nodes.new moments.old moments.new) }
    ensures shape { N.shape nodes.new ≡ N.shape nodes.old }
{
    match connection.converse(config, nodes, moments) {
        Err(_) if is_over.get() => connection.refuse_requests(Fault::UnknownTenant),
        ended => ended,
    }
}

/// Does so on a new connection.
pub(crate) fn serve_in_life<R: Read + Drop, O: Write + Drop, N: Nodes, M: Moments>(
    alloc: Global,
    config: &Config,
    source: Source<R>,
    sink: Sink<O>,
    is_over: &Cell<bool>,
    nodes: &mut N,
    moments: &mut M,
) -> Conversed<R, O>
    requires shape { N.shape nodes.old ≡ shape_of config.now }
    requires sizes { IsTrue (are_sizes config.now) }
    ensures converses { Converses (KeepsShape N.shape N.Answers) M.Gives config.now
        nodes.old nodes.new moments.old moments.new }

    // The client was served to the end, or served and then refused.
    ensures served { IfOk result.ended
        (ConversesOn (KeepsShape N.shape N.Answers) M.Gives config.now
        UnknownTenant
        (R.remaining (source_reader source)) (R.remaining (source_reader result.source))
        (O.contents (sink_writer sink)) (O.contents (sink_writer result.sink))
        nodes.old nodes.new moments.old moments.new) }
    ensures shape { N.shape nodes.new ≡ N.shape nodes.old }
{
    let mut connection = Connection::new(alloc, source, sink);
    let ended = converse_in_life(&mut connection, config, is_over, nodes, moments);
    let (source, sink) = connection.into_inner();
    Conversed {
        ended,
        source,
        sink,
    }
}

/// Does the same over a socket, from which these bytes were read before.
pub(crate) fn serve_watched<C: Wait + Clock, S: Site, N: Nodes, M: Moments>(
    alloc: Global,
    config: &Config,
    line: &Line<'_, C>,
    bytes: &[u8],
    stay: Stay<'_, C, S>,
    nodes: &mut N,
    moments: &mut M,
) -> Result<Ended, RequestError>
    requires shape { N.shape nodes.old ≡ shape_of config.now }
    requires sizes { IsTrue (are_sizes config.now) }
    ensures converses { Converses (KeepsShape N.shape N.Answers) M.Gives config.now
        nodes.old nodes.new moments.old moments.new }
    ensures shape { N.shape nodes.new ≡ N.shape nodes.old }
{
    let is_over = Cell::new(false);
    let incoming = Watched::new(alloc, Incoming { line }, stay, &is_over)?;
    let source = Source::new(bytes.chain(incoming));
    let sink = Sink::new(Outgoing { line });
    let conversed = serve_in_life(alloc, config, source, sink, &is_over, nodes, moments);
    conversed.ended
}
