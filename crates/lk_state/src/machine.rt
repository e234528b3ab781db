ghost use Rattle.std.specs.Prelude.{◌≡◌, ◌≤◌, ◌++◌, ℕ, List, length, OnOk, OnErr, IfOk, IsErrOf};
ghost use Rattle.lk_types.specs.Limits.{max_machine};
ghost use Rattle.lk_types.specs.Ranges.{IsClient};
ghost use Rattle.lk_types.specs.Answers.{IsAnswer};
ghost use Rattle.lk_state.specs.Faults.{unpack_number};
ghost use Rattle.lk_state.specs.Meanings.{Meaning, Task, Running, Raising};

use bytes::BytesMut;
use lk_types::{Answer, ClientNo, NoMemory};
use std::alloc::{AllocError, AllocFailed, Global};
use thiserror::Error;

/// Why bytes cannot be unpacked into a state or a machine.
#[derive(Clone, Copy, Debug, PartialEq, Eq, Error)]
pub enum UnpackFault {
    /// The bytes are not the packed text of any value.
    #[error("not packed")]
    NotPacked = 12,
    /// Out of memory.
    #[error("no memory")]
    NoMemory = 13,
}

impl From<NoMemory> for UnpackFault {
    ghost use Rattle.lk_state.specs.declared.machine.UnpackFault.TheVariants as fault;

    ghost from_gives = { λ _ e. e ≡ fault.NoMemory };

    fn from(_error: NoMemory) -> UnpackFault {
        UnpackFault::NoMemory
    }
}

impl From<AllocError> for UnpackFault {
    ghost use Rattle.lk_state.specs.declared.machine.UnpackFault.TheVariants as fault;

    ghost from_gives = { λ _ e. e ≡ fault.NoMemory };

    fn from(_error: AllocError) -> UnpackFault {
        UnpackFault::NoMemory
    }
}

impl<T: Drop> From<AllocFailed<T>> for UnpackFault {
    ghost use Rattle.lk_state.specs.declared.machine.UnpackFault.TheVariants as fault;

    ghost from_gives = { λ _ e. e ≡ fault.NoMemory };

    fn from(_error: AllocFailed<T>) -> UnpackFault {
        UnpackFault::NoMemory
    }
}

impl UnpackFault {
    /// Returns the number of this fault: 12 or 13.
    pub fn number(self) -> u8
        ensures { result ≡ unpack_number self }
    {
        self as u8
    }
}

/// A deterministic state machine, such as the lock table. Contracts see it only by its packed text: two machines with
/// the same text give the same answers for ever.
pub trait Machine: Sized + Drop {
    // the packed text of a machine
    ghost text: { Self → List ℕ };

    // which bytes are packed texts
    ghost IsText: { List ℕ → Type 0 };

    // the text of a machine that has executed nothing, the text after a task of a client, and the answer to the client
    ghost meaning: { Meaning };

    /// Returns a machine that has executed nothing. Takes no memory.
    fn begin(alloc: Global) -> Self
        ensures { text result ≡ meaning.first };

    /// Executes the body of a client's request and returns the answer. An `Err` changes nothing.
    fn apply(&mut self, client: ClientNo, body: &[u8]) -> Result<Answer, NoMemory>
        ensures ok { OnOk result (text self.new ≡ meaning.next client (Running body.now) (text self.old)) }
        ensures answer { IfOk result (λ a. a ≡ meaning.answer client (Running body.now) (text self.old)) }
        ensures err { OnErr result (text self.new ≡ text self.old) };

    /// Raises the machine to its second version and returns the answer, which is the same for every client. Takes no
    /// memory.
    fn raise(&mut self) -> Answer
        ensures next { (client : ℕ) → text self.new ≡ meaning.next client Raising (text self.old) }
        ensures answer { (client : ℕ) → result ≡ meaning.answer client Raising (text self.old) };

    /// Appends the packed text, or nothing if it is out of memory.
    fn pack(&self, out: &mut BytesMut) -> Result<(), NoMemory>
        ensures ok { OnOk result (out.new.items ≡ out.old.items ++ text self.now) }
        ensures err { OnErr result (out.new.items ≡ out.old.items) };

    /// Returns the machine of this packed text. `NotPacked`: the bytes are not one. `NoMemory` may be returned for any
    /// bytes.
    fn unpack(alloc: Global, bytes: &[u8]) -> Result<Self, UnpackFault>
        ensures ok { IfOk result (λ m. text m ≡ bytes.now) }
        ensures packed { OnOk result (IsText bytes.now) }
        ensures not_packed { IsErrOf result UnpackFault.NotPacked → IsText bytes.now → ⊥ };

    // the text of a machine that has executed nothing is a packed text
    ghost first_is_text: { IsText meaning.first };

    // the text after a task is a packed text
    ghost next_is_text: { (client : ℕ) (task : Task) (before : List ℕ) → IsClient client → IsText before
        → IsText (meaning.next client task before) };

    // each answer is in its range
    ghost answer_is_answer: { (client : ℕ) (task : Task) (before : List ℕ) → IsClient client → IsText before
        → IsAnswer (meaning.answer client task before) };

    // a packed text has at most 30,631 bytes
    ghost short: { (bytes : List ℕ) → IsText bytes → length bytes ≤ max_machine };
}
