use crate::to::To;
use std::marker::Model;

/// A message to send: its recipient, and its bytes as `encode` returns them.
#[derive(Drop)]
pub struct Envelope {
    pub to: To,
    pub bytes: Vec<u8>,
}

impl Model for Envelope {
    ghost use Rattle.lk_node_interface.specs.Envelopes.{EnvelopeValue};

    ghost Value = { EnvelopeValue };

    ghost view = { λ l. record { to = l.to; bytes = l.bytes.items } };
}
