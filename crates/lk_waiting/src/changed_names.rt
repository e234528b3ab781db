//! The names whose holders may have changed since a server looked at them for the clients that wait: those of the
//! commands that were executed since then.

ghost use Rattle.std.specs.Prelude.{◌≡◌, ◌∷◌, [], true, false, IfSome, IsNone};
ghost use Rattle.lk_locks.specs.Bodies.{body_of};
ghost use Rattle.lk_waiting.specs.ChangedNames.{AreChanged, name_in, name_of_body, names_in, none_changed};

use lk_locks::{Body, Name};
use lk_node_interface::Note;
use lk_types::{Command, Op, Payload};
use std::alloc::Global;
use std::marker::Model;

// More names than these count as all.
const MOST: usize = 32;

/// The names whose holders may have changed: up to 32, or all.
#[derive(Drop)]
pub struct ChangedNames {
    names: Vec<Name>,
    are_all: bool,
}

impl Model for ChangedNames {
    ghost use Rattle.lk_waiting.specs.ChangedNames.{ChangedValue};

    ghost Value = { ChangedValue };

    ghost view = { λ c. record { names = c.names.items; all = c.are_all } };
}

// Returns the name in a body, if these bytes are one.
fn name_in_body(payload: &Payload) -> Option<Name>
    ensures some { IfSome result (λ name. name_of_body (body_of payload.now) ≡ name ∷ []) }
    ensures none { IsNone result → name_of_body (body_of payload.now) ≡ [] }
{
    match Body::read(payload.as_slice()) {
        Some(body) => Some(body.name().copy()),
        None => None,
    }
}

// Returns the name of a command that was executed, if the note reports one.
fn name_in(note: &Note) -> Option<Name>
    ensures some { IfSome result (λ name. name_in note.now ≡ name ∷ []) }
    ensures none { IsNone result → name_in note.now ≡ [] }
{
    let Note::Ran(_, _, Command::Request(request)) = note else {
        return None;
    };
    match &request.op {
        Op::Table(payload) => name_in_body(payload),
        Op::Join(_, _) | Op::Leave(_) | Op::Raise => None,
    }
}

impl ChangedNames {
    /// None has changed. Takes no memory yet.
    pub fn new(alloc: Global) -> ChangedNames
        ensures { result ≡ none_changed }
    {
        ChangedNames {
            names: Vec::new(alloc),
            are_all: false,
        }
    }

    /// Returns the names, if they are not all.
    pub fn names(&self) -> Option<&[Name]>
        ensures some { IfSome result (λ names. self.now ≡ record { names = names.now; all = false }) }
    {
        if self.are_all {
            return None;
        }
        Some(self.names.as_slice())
    }

    /// Whether none has changed.
    pub fn are_none(&self) -> bool
        ensures { result ≡ true → self.now ≡ none_changed }
    {
        self.names.is_empty() && !self.are_all
    }

    /// Forgets them.
    pub fn clear(&mut self)
        ensures { self.new ≡ none_changed }
    {
        self.names.clear();
        self.are_all = false;
    }

    // Adds a name. Without room, or out of memory, all have changed.
    fn add(&mut self, name: Name)
        ensures { AreChanged (name ∷ []) self.old self.new }
    {
        if self.names.len() >= MOST || self.names.push(name).is_err() {
            self.are_all = true;
        }
    }

    // Adds the name of a command that was executed, if the note reports one.
    fn note_one(&mut self, note: &Note)
        ensures { AreChanged (name_in note.now) self.old self.new }
    {
        if let Some(name) = name_in(note) {
            self.add(name);
        }
    }

    /// Adds the names of the commands that were executed by these notes.
    pub fn note(&mut self, notes: &[Note])
        ensures { AreChanged (names_in notes.now) self.old self.new }
    {
        for note in notes {
            self.note_one(note);
        }
    }
}
