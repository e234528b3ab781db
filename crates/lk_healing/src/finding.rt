// Finds a datagram of a world.
ghost use Rattle.std.specs.Prelude.{◌≡◌, None, Some, IfSome};
ghost use Rattle.lk_agreement_laws.specs.Datagrams.{Datagram as DatagramValue};
ghost use Rattle.lk_agreement_laws.specs.declared.party.Party.TheVariants as party;
ghost use Rattle.lk_sim.specs.Refusals.{datagram_at};
ghost use Rattle.lk_healing.specs.Halts.{IsAddressed, NoneIsAddressed};

use lk_agreement_laws::Party;
use lk_replica::Datagram;
use lk_types::NodeNo;

/// Returns the place of the first datagram of these bytes that is addressed to the node. Places count from 1.
pub fn place_of(sent: &[Datagram], to: NodeNo, bytes: &[u8]) -> Option<usize>
    ensures some { IfSome result (λ k. IsAddressed sent.now k to bytes.now) }
    ensures none { result ≡ None → NoneIsAddressed sent.now to bytes.now }
{
    'places: for i in 0..sent.len() {
        let datagram = &sent[i];
        if datagram.to == Party::Node(to) && datagram.bytes.as_slice() == bytes {
            return Some(i + 1);
        }
    }
    None
}
