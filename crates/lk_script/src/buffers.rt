//! Buffers that are kept from line to line, so that their memory is reused.

ghost use Rattle.std.specs.Prelude.{◌≡◌, [], OnOk};
ghost use Rattle.hex.specs.Hex.{encode_lower};
ghost use Rattle.lk_messages.specs.Grammar.{spelling};

use bytes::BytesMut;
use lk_types::NoMemory;
use lk_wire::{Message, write};
use std::alloc::Global;

/// The bytes that a line spells, the datagram of the reply to them, and the text that the line prints.
#[derive(Drop)]
pub struct Buffers {
    pub bytes: Vec<u8>,
    pub reply: BytesMut,
    pub text: Vec<u8>,
}

impl Buffers {
    /// Empty buffers.
    pub fn new(alloc: Global) -> Buffers
        ensures bytes { result.bytes.items ≡ [] }
        ensures reply { result.reply.items ≡ [] }
        ensures text { result.text.items ≡ [] }
    {
        Buffers {
            bytes: Vec::new(alloc),
            reply: BytesMut::new(alloc),
            text: Vec::new(alloc),
        }
    }

    /// Replaces the text with this one.
    pub fn print(&mut self, text: &str) -> Result<(), NoMemory>
        ensures ok { OnOk result (self.new.text.items ≡ text.now) }
    {
        self.text.clear();
        self.text.extend_from_slice(text.as_bytes())?;
        Ok(())
    }

    /// Replaces the text with the message's datagram, in hex.
    pub fn print_message(&mut self, message: &Message) -> Result<(), NoMemory>
        ensures ok { OnOk result (self.new.text.items ≡ encode_lower (spelling message.now)) }
    {
        self.reply.clear();
        write(message, &mut self.reply)?;
        self.print_reply()
    }

    // Replaces the text with the reply, in hex.
    fn print_reply(&mut self) -> Result<(), NoMemory>
        ensures ok { OnOk result (self.new.text.items ≡ encode_lower self.old.reply.items) }
    {
        let digits = self.reply.len().checked_mul(2).ok_or(NoMemory)?;
        self.text.resize(digits, 0)?;
        hex::encode_to_slice(self.reply.as_slice(), self.text.as_mut_slice()).unwrap();
        Ok(())
    }
}
