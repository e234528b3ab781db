ghost use Rattle.std.specs.Prelude.{◌≡◌, Option, List, [], ◌∷◌, ◌++◌, IsTrue, false};
ghost use Rattle.lk_leader.specs.Values.{IsNotAbove, IsBest};

use lk_types::{NodeNo, Vote};

// A vote, and the node whose promise reports it.
#[derive(Drop)]
pub(crate) struct PromisedVote {
    pub(crate) node: NodeNo,
    pub(crate) vote: Vote,
}

impl PromisedVote {
    // Whether the other vote, which this node reports, is higher: its ballot is greater, or the same and reported by a
    // smaller node. The second rule only makes the highest unique, whatever the order of promises.
    fn is_below(&self, node: NodeNo, vote: &Vote) -> bool
        ensures below { IsTrue result → IsNotAbove self.now (record { node = node; vote = vote.now }) }
        ensures above { result ≡ false → IsNotAbove (record { node = node; vote = vote.now }) self.now }
    {
        let (own, other) = (self.vote.ballot.get(), vote.ballot.get());
        own.is_below(other) || (!other.is_below(own) && node < self.node)
    }
}

/// Returns the higher of `best` and this vote, which the node reports.
pub fn better(best: Option<PromisedVote>, node: NodeNo, vote: &Vote) -> Option<PromisedVote>
    ensures { (ts : List PromisedVote) → IsBest ts best
        → IsBest (ts ++ record { node = node; vote = vote.now } ∷ []) result }
{
    if let Some(reported) = &best {
        if !reported.is_below(node, vote) {
            return best;
        }
    }
    Some(PromisedVote {
        node,
        vote: vote.copy(),
    })
}
