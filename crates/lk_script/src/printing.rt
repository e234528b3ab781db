//! Prints what an event of a world noted and sent, and how it ended a node, as lines.

ghost use Rattle.std.specs.Prelude.{◌≡◌, ◌++◌, OnOk};
ghost use Rattle.lk_script.specs.Worlds.{refusal_name, refused_line};

use lk_agreement_laws::Party;
use lk_node_interface::Note;
use lk_replica::Datagram;
use lk_sim::{End, Refused};
use lk_types::{Command, NoMemory, NodeNo, Position};
use lk_wire::{Bad, ContentRef, MessageRef, NodeMessageRef, view};
use std::alloc::Global;
use std::io::Write;

// Appends `ran NODE POSITION noop` or `ran NODE POSITION CLIENT NUMBER`.
fn print_ran(
    text: &mut Vec<u8>,
    node: NodeNo,
    position: Position,
    command: &Command,
) -> Result<(), NoMemory> {
    let (node, position) = (node.get(), position.get());
    let printed = match command {
        Command::Noop => writeln!(text, "ran {node} {position} noop"),
        Command::Request(request) => {
            let (client, number) = (request.client.get(), request.number.get());
            writeln!(text, "ran {node} {position} {client} {number}")
        }
    };
    printed.map_err(|_| NoMemory)
}

// Appends the line of a note.
fn print_note(text: &mut Vec<u8>, note: &Note) -> Result<(), NoMemory> {
    let printed = match note {
        Note::Asked(request) => {
            let (client, number) = (request.client.get(), request.number.get());
            writeln!(text, "asked {client} {number}")
        }
        Note::Counted(node, position, _, _) => {
            let (node, position) = (node.get(), position.get());
            writeln!(text, "counted {node} {position}")
        }
        Note::Ran(node, position, command) => {
            return print_ran(text, *node, *position, command);
        }
        Note::Answered(node, client, number, answer) => {
            let (node, client, number) = (node.get(), client.get(), number.get());
            writeln!(text, "answered {node} {client} {number} {answer}")
        }
        Note::Told(node, client, number, last) => {
            let (node, client) = (node.get(), client.get());
            let (number, last) = (number.get(), last.get());
            writeln!(text, "told {node} {client} {number} {last}")
        }
    };
    printed.map_err(|_| NoMemory)
}

// Returns `n` for a node or `c` for a client, and its number.
fn party(party: Party) -> (char, u32) {
    match party {
        Party::Node(node) => ('n', node.get()),
        Party::Client(client) => ('c', u32::from(client.get())),
    }
}

// Returns the name of the kind of a node's message.
fn node_kind(message: &NodeMessageRef<'_>) -> &'static str {
    match message {
        NodeMessageRef::Prepare(..) => "prepare",
        NodeMessageRef::Promise(_) => "promise",
        NodeMessageRef::Accept(_) => "accept",
        NodeMessageRef::Accepted(_) => "accepted",
        NodeMessageRef::Nack(_) => "nack",
        NodeMessageRef::Decided(_) => "decided",
        NodeMessageRef::Want(_) => "want",
        NodeMessageRef::Part(_) => "part",
        NodeMessageRef::Answer(_) => "answer",
        NodeMessageRef::Elsewhere(_) => "elsewhere",
        NodeMessageRef::Passed(_) => "passed",
        NodeMessageRef::Lead(..) => "lead",
    }
}

// Returns the name of a datagram's kind, or `bad` if it does not parse.
fn kind(bytes: &[u8]) -> &'static str {
    match view(bytes) {
        Ok(message) => match &message.content {
            ContentRef::Request(_) => "request",
            ContentRef::Node(_, said) => node_kind(said),
        },
        Err(Bad) => "bad",
    }
}

// Appends `sent K FROM TO KIND`, where K is the index of the datagram, from 1.
fn print_datagram(text: &mut Vec<u8>, k: usize, datagram: &Datagram) -> Result<(), NoMemory> {
    let (from, sender) = party(datagram.from);
    let (to, receiver) = party(datagram.to);
    let kind = kind(&datagram.bytes);
    writeln!(text, "sent {k} {from}{sender} {to}{receiver} {kind}").map_err(|_| NoMemory)
}

// Whether the note reports an answer or a pass, and so is printed with its datagram.
fn is_told(note: &Note) -> bool {
    matches!(note, Note::Answered(..) | Note::Told(..))
}

// Whether the datagram is an Answer or a Passed, and so has a note.
fn is_reply(datagram: &Datagram) -> bool {
    match view(&datagram.bytes) {
        Ok(
            MessageRef {
                content: ContentRef::Node(_, NodeMessageRef::Answer(_) | NodeMessageRef::Passed(_)),
                ..
            },
        ) => true,
        _ => false,
    }
}

// Appends the lines of all notes but those that are printed with their datagrams.
fn print_notes(text: &mut Vec<u8>, notes: &[Note]) -> Result<(), NoMemory> {
    for note in notes {
        if !is_told(note) {
            print_note(text, note)?;
        }
    }
    Ok(())
}

// Appends the line of the first note of an answer or a pass, and returns the notes after it.
fn print_told<'a>(text: &mut Vec<u8>, notes: &'a [Note]) -> Result<&'a [Note], NoMemory> {
    for i in 0..notes.len() {
        if is_told(&notes[i]) {
            print_note(text, &notes[i])?;
            return Ok(&notes[i + 1..]);
        }
    }
    Ok(&[])
}

// Appends the lines of the datagrams from index `from` on, each Answer and Passed after the line of its note.
fn print_sent(
    text: &mut Vec<u8>,
    sent: &[Datagram],
    from: usize,
    notes: &[Note],
) -> Result<(), NoMemory> {
    let mut notes = notes;
    for k in from..sent.len() {
        if is_reply(&sent[k]) {
            notes = print_told(text, notes)?;
        }
        print_datagram(text, k + 1, &sent[k])?;
    }
    Ok(())
}

// Appends `fault NODE NUMBER NAME`.
fn print_fault(text: &mut Vec<u8>, node: NodeNo, number: u8) -> Result<(), NoMemory> {
    let node = node.get();
    let name = match number {
        7 => "device",
        9 => "damaged",
        _ => "failed",
    };
    writeln!(text, "fault {node} {number} {name}").map_err(|_| NoMemory)
}

// Appends how an event ended a node: a line `fault ..`, or `stopped NODE`.
fn print_end(text: &mut Vec<u8>, end: &End) -> Result<(), NoMemory> {
    match end {
        End::Fault(node, number) => print_fault(text, *node, *number),
        End::Stopped(node) => {
            let node = node.get();
            writeln!(text, "stopped {node}").map_err(|_| NoMemory)
        }
    }
}

/// Appends the lines of one event: its notes, then its datagrams, each Answer and Passed after its own note, and how it
/// ended a node. `notes` and `datagrams` are the lengths of `trace` and `sent` before the event.
pub fn print_event(
    text: &mut Vec<u8>,
    trace: &[Note],
    sent: &[Datagram],
    (notes, datagrams): (usize, usize),
    end: Option<End>,
) -> Result<(), NoMemory> {
    let notes = trace.get(notes..).unwrap_or(&[]);
    print_notes(text, notes)?;
    print_sent(text, sent, datagrams, notes)?;
    match &end {
        Some(end) => print_end(text, end),
        None => Ok(()),
    }
}

// Returns the name of a reason for which an event is rejected.
fn name_of(refused: Refused) -> &'static str
    ensures { result.now ≡ refusal_name refused }
{
    match refused {
        Refused::NoSuchNode => "NoSuchNode",
        Refused::NotUp => "NotUp",
        Refused::AlreadyUp => "AlreadyUp",
        Refused::NoSuchDatagram => "NoSuchDatagram",
        Refused::Forged => "Forged",
        Refused::WorldFull => "WorldFull",
        Refused::WorldMemory => "WorldMemory",
    }
}

/// Appends `refused NUMBER NAME`, the last line of a run that a rejected event ended.
pub fn print_refusal(alloc: Global, refused: Refused, text: &mut Vec<u8>) -> Result<(), NoMemory>
    ensures ok { OnOk result (text.new.items ≡ text.old.items ++ refused_line refused) }
{
    let number = refused.number();
    let name = name_of(refused);
    let line = format!(in alloc; "refused {number} {name}\n")?;
    text.extend_from_slice(line.as_bytes())?;
    Ok(())
}
