// Makes the notes of the answers and passes among datagrams.
ghost use Rattle.std.specs.Prelude.{◌≡◌, ◌++◌, [], ◌∷◌, List, OnOk};
ghost use Rattle.lk_node_interface.specs.declared.note.Note.{Note as NoteValue};
ghost use Rattle.lk_sim_nodes.specs.Told.{told_by, listed, NotesReplies};

use lk_node_interface::Note;
use lk_replica::Datagram;
use lk_types::NoMemory;
use lk_wire::{Content, Message, NodeMessage, read};
use std::alloc::Global;

// Returns the note of an Answer or a Passed; any other message has none.
fn note_of(message: &Message) -> Option<Note>
    ensures { told_by message.now.content ≡ listed result }
{
    match &message.content {
        Content::Node(node, NodeMessage::Answer(a)) => {
            Some(Note::Answered(*node, a.client, a.number, a.answer))
        }
        Content::Node(node, NodeMessage::Passed(p)) => {
            Some(Note::Told(*node, p.client(), p.number(), p.last()))
        }
        _ => None,
    }
}

// Appends the note of the datagram, if it has one.
fn add_note(alloc: Global, notes: &mut Vec<Note>, datagram: &Datagram) -> Result<(), NoMemory>
    ensures { OnOk result ((more : List NoteValue) × (notes.new.items ≡ notes.old.items ++ more)
        × NotesReplies (datagram.now ∷ []) more) }
{
    let Ok(message) = read(alloc, &datagram.bytes) else {
        // A node sends only datagrams that parse, so it was memory that the read lacked.
        return Err(NoMemory);
    };
    if let Some(note) = note_of(&message) {
        notes.push(note)?;
    }
    Ok(())
}

/// Appends the notes of the answers and passes among the datagrams, in order.
pub fn add_notes(alloc: Global, notes: &mut Vec<Note>, batch: &[Datagram]) -> Result<(), NoMemory>
    ensures { OnOk result ((more : List NoteValue) × (notes.new.items ≡ notes.old.items ++ more)
        × NotesReplies batch.now more) }
{
    for datagram in batch {
        add_note(alloc, notes, datagram)?;
    }
    Ok(())
}
