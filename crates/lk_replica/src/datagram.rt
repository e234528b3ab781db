// A datagram of a world of replicas.
use lk_agreement_laws::Party;
use std::marker::Model;

/// A datagram: its sender, its recipient, and its bytes.
#[derive(Drop)]
pub struct Datagram {
    pub from: Party,
    pub to: Party,
    pub bytes: Vec<u8>,
}

impl Model for Datagram {
    ghost use Rattle.lk_agreement_laws.specs.Datagrams.{Datagram};

    ghost Value = { Datagram };

    ghost view = { λ d. record { from = d.from; to = d.to; bytes = d.bytes.items } };
}
