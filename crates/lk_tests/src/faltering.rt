//! A post whose first send fails: that is told, the other envelopes are sent, and the replica goes on.

use crate::replicas::{Locks, begun};
use lk_node_interface::{Input, Post, SendFault, To};
use lk_replica::Replica;
use std::test::Fail;

// A post whose first send fails. It does not tell what was sent, but to how many.
#[derive(Clone, Copy)]
struct Falters {
    failures: u64,
    sent: u8,
}

impl Post for Falters {
    ghost use Rattle.std.specs.Prelude.{[]};

    ghost sent = { λ p. [] };

    ghost is_observable = { ⊥ };

    ghost failures = { λ p. p.failures };

    ghost Carries = { λ _ _ _ _. Unit {0} };

    fn send(&mut self, _to: To, _bytes: &[u8]) -> Result<(), SendFault> {
        if self.failures == 0 {
            self.failures = 1;
            return Err(SendFault);
        }
        self.sent = self.sent.wrapping_add(1);
        Ok(())
    }
}

// The number of the refusal of a tick, 0 for none.
fn ticked(replica: &mut Locks, post: &mut Falters) -> u8 {
    match Replica::take(replica, Input::Tick, post) {
        Ok(_) => 0,
        Err(fault) => fault.number(),
    }
}

// How each of six ticks of the first of three nodes ends, and how much is sent by then.
fn ticks(replica: &mut Locks) -> [(u8, u8); 6] {
    let mut post = Falters {
        failures: 0,
        sent: 0,
    };
    let mut ends = [(0, 0); 6];
    for end in &mut ends {
        *end = (ticked(replica, &mut post), post.sent);
    }
    ends
}

#[test]
fn the_letters_behind_a_lost_one_are_sent(rt: HostRuntime) -> Result<(), Fail> {
    let mut replica = begun(rt.alloc(), 1, 1, 3)?;
    // At the fourth tick all three are asked for a promise, and at each later one again.
    let ends = [(0, 0), (0, 0), (0, 0), (15, 2), (0, 7), (0, 12)];
    assert_eq!(rt; ticks(&mut replica), ends);
    Ok(())
}
