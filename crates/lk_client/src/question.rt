//! Sends one request, follows the Elsewhere replies to it, and prints the answer.

ghost use Rattle.std.specs.Prelude.{◌≡◌, ◌≤◌, ◌⊎◌, ◌↔◌, true, Some, IfOk, IfErr, OnErr, IfSome, IsSomeAnd};
ghost use Rattle.lk_messages.specs.Grammar.{Spells};
ghost use Rattle.lk_transport.specs.Streams.{Receives as Arrives, next_of};
ghost use Rattle.lk_client.specs.Questions.{own_place, asking, IsAsked, HearsNext, SendsOnce, Receives, Tries};
ghost use Rattle.lk_client.specs.Questions.{Exchanges, IsFinal};
ghost use Rattle.lk_client.specs.Rules.{SendsOnly, AsksInTurn, Comes};
ghost use Rattle.lk_client.specs.declared.reply.Reply.{Reply as ReplyValue};

use crate::destination::{Destination, Place};
use crate::reply::{Reply, read_reply};
use bytes::BytesMut;
use lk_program_fault::ProgramFault;
use lk_transport::receive_buffer::ReceiveBuffer;
use lk_transport::socket::DatagramSocket;
use lk_types::{Port, Request};
use lk_wire::{Content, Message, write};
use std::alloc::Global;
use std::io;
use std::io::Write;
use std::net::SocketAddr;

// How many receives of 100 ms pass before the client gives up a place that it asks alone.
const ALONE: u32 = 50;
// How many pass before the client asks the next of several places.
const EACH: u32 = 5;
// How many Elsewhere replies the client follows for one request.
const FOLLOWED: u32 = 20;

/// A request, and where to send it first: `port` at the address of `destination`.
#[derive(Drop)]
pub struct Question {
    pub cluster: u64,
    pub port: Port,
    pub request: Request,
    pub destination: Destination,
}

impl Question {
    /// Where it is sent first.
    pub(crate) fn place(&self) -> Place
        ensures { result ≡ own_place self.now }
    {
        Place {
            address: self.destination.address,
            port: self.port,
        }
    }
}

// Serialises a message. Fails only when out of memory.
fn written(alloc: Global, message: &Message) -> Result<BytesMut, ProgramFault>
    ensures spells { IfOk result (λ bytes. Spells message.now bytes.items) }
    ensures only { IfErr result (λ f. f ≡ ProgramFault.NoMemory) }
{
    let mut bytes = BytesMut::new(alloc);
    match write(message, &mut bytes) {
        Ok(()) => Ok(bytes),
        Err(_) => Err(ProgramFault::NoMemory),
    }
}

/// Returns the datagram of the request, without a frame. Fails only when out of memory.
pub fn datagram(alloc: Global, question: &Question) -> Result<BytesMut, ProgramFault>
    ensures asks { IfOk result (λ bytes. Spells (asking question.now) bytes.items) }
    ensures only { IfErr result (λ f. f ≡ ProgramFault.NoMemory) }
{
    let message = Message {
        cluster: question.cluster,
        content: Content::Request(question.request.copy()),
    };
    written(alloc, &message)
}

/// What one receive brings to a client that waits for a reply.
#[derive(Clone, Copy)]
pub enum Heard {
    Nothing,
    /// A datagram that is no reply to the request.
    Other,
    Reply(Reply),
}

/// Receives once, for at most 100 ms, and returns what arrived: a reply to the question, another datagram, or nothing.
#[tactic(auto, using(crate::proofs::Hearing::arrives))]
pub fn next_reply<S: DatagramSocket>(
    buffer: &mut ReceiveBuffer,
    socket: &mut S,
    question: &Question,
) -> Heard
    ensures heard { S.is_observable → HearsNext question.now (next_of S.incoming socket.old) result }
    ensures comes { S.is_observable
        → Arrives (next_of S.incoming socket.old) (S.incoming socket.old) (S.incoming socket.new) }
    ensures unchanged { S.sent socket.new ≡ S.sent socket.old }
    ensures spares { S.failures socket.new ≡ S.failures socket.old }
{
    buffer.receive(socket);
    let Some((bytes, _)) = buffer.latest() else {
        return Heard::Nothing;
    };
    match read_reply(
        question.cluster,
        &question.request,
        question
            .destination
            .seals
            .unseal(question.request.client.get(), bytes),
    ) {
        Some(reply) => Heard::Reply(reply),
        None => Heard::Other,
    }
}

// Returns the bytes to send for the request: its datagram, in a frame if the client has a key. Fails only when out of
// memory.
pub(crate) fn bytes_to_send(alloc: Global, question: &Question) -> Result<Vec<u8>, ProgramFault>
    ensures asks { IfOk result (λ bytes. IsAsked question.now bytes.items) }
    ensures only { IfErr result (λ f. f ≡ ProgramFault.NoMemory) }
{
    let bytes = datagram(alloc, question)?;
    let mut frame = Vec::new(alloc);
    let client = question.request.client.get();
    let framed = question
        .destination
        .seals
        .frame_of(client, &bytes, &mut frame)?;
    Ok(framed.to_vec(alloc)?)
}

// Sends bytes to a place. A failed send is ignored, as if the datagram were lost.
pub(crate) fn send<S: DatagramSocket>(socket: &mut S, place: Place, bytes: &[u8])
    ensures once { S.is_observable → SendsOnce (place.address, place.port) bytes.now (S.sent socket.old)
        (S.failures socket.old) (S.sent socket.new) (S.failures socket.new) }
    ensures still { S.is_observable → S.incoming socket.new ≡ S.incoming socket.old }
{
    let address = SocketAddr::from((place.address, place.port.get()));
    let _ = socket.send_to(address, bytes);
}

// Receives once, and returns an Answer or a Passed. For an Elsewhere it resends the bytes to the member named there, if
// fewer than 20 were followed, and counts it in `followed`.
#[tactic(auto, using(crate::proofs::Hearing::arrives_at))]
pub(crate) fn receive_next<S: DatagramSocket>(
    buffer: &mut ReceiveBuffer,
    socket: &mut S,
    question: &Question,
    bytes: &[u8],
    followed: &mut u32,
) -> Option<Reply>
    // What its receive finds either ends the exchange or is followed to the member that it names.
    ensures heard { S.is_observable → Receives S.sent S.failures (next_of S.incoming) question.now bytes.now result
        (record { socket = socket.old; followed = followed.old })
        (record { socket = socket.new; followed = followed.new }) }
    ensures comes { S.is_observable
        → Arrives (next_of S.incoming socket.old) (S.incoming socket.old) (S.incoming socket.new) }
    ensures told { IfSome result IsFinal }
    ensures most { followed.old ≤ 20 → followed.new ≤ 20 }
{
    match next_reply(buffer, socket, question) {
        Heard::Reply(Reply::Elsewhere(member)) if *followed < FOLLOWED => {
            *followed += 1;
            send(socket, question.destination.place_of(&member), bytes);
            None
        }
        Heard::Reply(Reply::Elsewhere(_)) | Heard::Other | Heard::Nothing => None,
        Heard::Reply(reply) => Some(reply),
    }
}

// Sends the request to a place, and returns the reply that one of the next `patience` receives brings, or `None`.
fn ask_place<S: DatagramSocket>(
    buffer: &mut ReceiveBuffer,
    socket: &mut S,
    question: &Question,
    place: Place,
    patience: u32,
    bytes: &[u8],
    followed: &mut u32,
) -> Option<Reply>
    requires { followed.old ≤ 20 }
    // The bytes go to the place, and of what comes next it hears at most that many, until it is told something.
    ensures tries { S.is_observable
        → Tries S.sent S.failures (next_of S.incoming) question.now patience place bytes.now result
        (record { socket = socket.old; followed = followed.old })
        (record { socket = socket.new; followed = followed.new }) }
    ensures told { IfSome result IsFinal }
    ensures most { followed.new ≤ 20 }
{
    send(socket, place, bytes);
    'receives: for _ in 0..patience {
        let reply = receive_next(buffer, socket, question, bytes, followed);
        if reply.is_some() {
            return reply;
        }
    }
    None
}

// Sends the request to each of these places in turn, and goes on to the next after `patience` receives without a reply.
// Returns the reply, or `None` if no place brings one. Over all places it follows the first 20 Elsewhere replies.
fn exchange_in_turn<S: DatagramSocket>(
    alloc: Global,
    socket: &mut S,
    question: &Question,
    places: &[Place],
    patience: u32,
) -> Result<Option<Reply>, ProgramFault>
    // The bytes of the question go to each place in turn until it is told something, and further only to the members of
    // Elsewhere that it hears.
    ensures tries { S.is_observable
        → IfOk result (λ told. Exchanges S.sent S.failures
        (next_of S.incoming) question.now patience places.now told socket.old socket.new) }
    ensures told { IfOk result (λ reply. IfSome reply IsFinal) }
    ensures unchanged { OnErr result (socket.new ≡ socket.old) }
    ensures only { IfErr result (λ f. f ≡ ProgramFault.NoMemory) }
{
    let bytes = bytes_to_send(alloc, question)?;
    let (mut buffer, mut followed) = (ReceiveBuffer::new(), 0);
    'places: for place in places {
        let reply = ask_place(
            &mut buffer,
            socket,
            question,
            *place,
            patience,
            &bytes,
            &mut followed,
        );
        if reply.is_some() {
            return Ok(reply);
        }
    }
    Ok(None)
}

/// Sends the request to these places in turn, with 5 receives each, or, if there are none, to its own with 50.
/// Returns the reply, or `None` if it gives up. A datagram that could not be sent is lost.
pub fn exchange<S: DatagramSocket>(
    alloc: Global,
    socket: &mut S,
    question: &Question,
    places: &[Place],
) -> Result<Option<Reply>, ProgramFault>
    // Whether it fails or not, it has sent nothing but that request.
    ensures same { S.is_observable → SendsOnly question.now (S.sent socket.old) (S.sent socket.new) }
    // It keeps the rule of a client that asks one request.
    ensures rule { S.is_observable
        → IfOk result (λ told. AsksInTurn S.sent S.failures
        (next_of S.incoming) question.now places.now told socket.old socket.new) }
    ensures told { IfOk result (λ reply. IfSome reply IsFinal) }
    ensures unchanged { OnErr result (socket.new ≡ socket.old) }
    ensures only { IfErr result (λ f. f ≡ ProgramFault.NoMemory) }
{
    match places {
        [] => exchange_in_turn(alloc, socket, question, &[question.place()], ALONE),
        places => exchange_in_turn(alloc, socket, question, places, EACH),
    }
}

// Writes a reply that tells what became of the request: an answer's text, or `passed LAST`, as a line. Returns whether
// it is such a reply; an Elsewhere is not.
fn write_final<W: Write>(reply: &Reply, out: &mut W) -> io::Result<bool>
    ensures told { IfOk result (λ is_told. is_told ≡ true ↔ IsFinal reply.now) }
{
    match reply {
        Reply::Answer(answer) => writeln!(out, "{answer}")?,
        Reply::Passed(last) => writeln!(out, "passed {}", last.get())?,
        Reply::Elsewhere(_) => return Ok(false),
    }
    Ok(true)
}

/// Writes the reply: an answer's text, `passed LAST`, or `no answer`. Returns whether it was an answer or a Passed.
pub fn write_reply<W: Write>(reply: Option<Reply>, out: &mut W) -> io::Result<bool>
    ensures told { IfOk result (λ is_told. is_told ≡ true ↔ IsSomeAnd reply IsFinal) }
{
    let is_told = match reply {
        Some(reply) => write_final(&reply, out)?,
        None => false,
    };
    if !is_told {
        out.write_all(b"no answer\n")?;
    }
    Ok(is_told)
}

// Sends the request, and prints the reply. Returns whether that was an Answer or a Passed.
//
// It fails if it is out of memory for the request, or if the output cannot be written.
fn ask_and_write<S: DatagramSocket, W: Write>(
    alloc: Global,
    socket: &mut S,
    question: &Question,
    places: &[Place],
    out: &mut W,
) -> Result<bool, ProgramFault>
    // Whether it fails or not, it has sent nothing but that request.
    ensures same { S.is_observable → SendsOnly question.now (S.sent socket.old) (S.sent socket.new) }
    // It learned the fate exactly if the exchange got a reply.
    ensures told { S.is_observable
        → IfOk result (λ is_told. Comes S.sent S.failures
        (next_of S.incoming) question.now places.now is_told socket.old socket.new) }
    ensures only { IfErr result (λ f. (f ≡ ProgramFault.NoMemory) ⊎ (f ≡ ProgramFault.Write)) }
{
    let reply = exchange(alloc, socket, question, places)?;
    match (write_reply(reply, out), out.flush()) {
        (Ok(is_told), Ok(())) => Ok(is_told),
        _ => Err(ProgramFault::Write),
    }
}

/// Asks at the question's place, or at these in turn if there are any, and prints the reply. Returns status 0, or 1
/// after printing `no answer` or writing a fault to standard error.
pub fn ask<S: DatagramSocket, W: Write, E: Write>(
    alloc: Global,
    socket: &mut S,
    question: &Question,
    places: &[Place],
    out: &mut W,
    err: &mut E,
) -> u8
    ensures status { result ≤ 1 }
    // Whatever the status, it has sent nothing but that request.
    ensures same { S.is_observable → SendsOnly question.now (S.sent socket.old) (S.sent socket.new) }
    // Status 0 only if it has sent the request and learned its fate.
    ensures asked { S.is_observable → result ≡ 0
        → (reply : ReplyValue) × AsksInTurn S.sent S.failures (next_of S.incoming) question.now places.now
        (Some reply) socket.old socket.new }
{
    match ask_and_write(alloc, socket, question, places, out) {
        Ok(true) => 0,
        Ok(false) => 1,
        Err(fault) => fault.write_to(err),
    }
}
