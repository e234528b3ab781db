// Looks up the datagrams that were ever sent.
ghost use Rattle.std.specs.Prelude.{◌≡◌, ◌↔◌, None, Some, IsTrue, IfSome};
ghost use Rattle.lk_sim.specs.Refusals.{datagram_at, HasRoom};

use lk_replica::Datagram;

// A step may take the list beyond this many datagrams, but no step begins there.
const MAX_DATAGRAMS: usize = 99_000;

/// Returns the datagram at place `k`. Places count from 1.
pub fn datagram(sent: &[Datagram], k: usize) -> Option<&Datagram>
    ensures some { IfSome result (λ d. datagram_at sent.now k ≡ Some d.now) }
    ensures none { result ≡ None → datagram_at sent.now k ≡ None }
{
    if k == 0 { None } else { sent.get(k - 1) }
}

/// Whether a step may begin: whether there are at most 99,000 datagrams.
pub fn has_room(sent: &[Datagram]) -> bool
    ensures { IsTrue result ↔ HasRoom sent.now }
{
    sent.len() <= MAX_DATAGRAMS
}
