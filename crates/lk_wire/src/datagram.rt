ghost use Rattle.std.specs.Prelude.{◌≡◌, IfOk, IsOkAnd};
ghost use Rattle.lk_messages.specs.declared.message.Message.{Message};
ghost use Rattle.lk_messages.specs.Grammar.{Spells};
ghost use Rattle.lk_wire.specs.Shown.{shown, LieAtTheirOffsets};

use crate::fault::Bad;
use crate::viewing::message::MessageRef;
use crate::viewing::view;
use std::marker::Model;

/// The bytes of a datagram with the result of `view`, so that they are checked only once, on arrival. A contract sees
/// the bytes.
#[derive(Drop)]
pub struct Datagram<'a> {
    bytes: &'a [u8],
    viewed: Result<MessageRef<'a>, Bad>,
}

impl<'a> Model for Datagram<'a> {
    ghost use Rattle.std.specs.Prelude.{List, ℕ};
    ghost use Rattle.lk_wire.specs.Datagrams.{IsViewOf};

    ghost Value = { List ℕ };

    ghost view = { λ d. d.bytes.now };

    ghost invariant = { λ d. IsViewOf d.viewed d.bytes.now };
}

impl<'a> Datagram<'a> {
    /// Parses the bytes, which need not spell a message, and keeps them with the result.
    pub fn of(bytes: &'a [u8]) -> Datagram<'a>
        ensures { result ≡ bytes.now }
    {
        let viewed = view(bytes);
        Datagram { bytes, viewed }
    }

    /// Its bytes.
    pub fn bytes(&self) -> &'a [u8]
        ensures { result.now ≡ self.now }
    {
        self.bytes
    }

    /// The message that the bytes spell, in place, as `view` returns it. The bytes are bad exactly if they spell no
    /// message.
    pub fn message(&self) -> Result<&MessageRef<'a>, Bad>
        // A returned message is spelled by the bytes.
        ensures found { IfOk result (λ m. Spells (shown m.now) self.now) }
        // If the bytes spell a message, it is returned.
        ensures only { (m : Message) → Spells m self.now → IsOkAnd result (λ r. shown r.now ≡ m) }
        // Each slice is at its offset in the bytes.
        ensures offsets { IfOk result (λ m. LieAtTheirOffsets (shown m.now).content self.now) }
    {
        match &self.viewed {
            Ok(message) => Ok(message),
            Err(_) => Err(Bad),
        }
    }
}
