//! Laws of an acceptor's responses, about the definitions alone: each is the contract of a function without a body.
ghost use Rattle.std.specs.Prelude.{◌≡◌, ◌+◌, ◌*◌, ◌≤◌, ℕ, List, length, Contains, IsTrue};
ghost use Rattle.lk_types.specs.BallotValue.{BallotValue};
ghost use Rattle.lk_types.specs.Ballots.{IsBelow};
ghost use Rattle.lk_types.specs.declared.entry.Entry.TheVariants as entry;
ghost use Rattle.lk_types.specs.declared.vote.Vote.{Vote};
ghost use Rattle.lk_types.specs.Votes.{are_votes_above};
ghost use Rattle.lk_agreement_laws.specs.Acceptors.{AcceptorState, Covers, AddsVote, ForgetsVotes};
ghost use Rattle.lk_agreement_laws.specs.Changes.{with_promise};
ghost use Rattle.lk_agreement_laws.specs.Datagrams.{Genesis, Datagram};
ghost use Rattle.lk_agreement_laws.specs.Nodes.{PaxosState, MaySend};
ghost use Rattle.lk_acceptor.specs.AcceptorValue.{AcceptorValue};
ghost use Rattle.lk_acceptor.specs.Replies.{GrantsAccept, GrantsPrepare, RepliesToPrepare, RepliesToAccept};
ghost use Rattle.lk_acceptor.specs.States.{IsOrdered, with_vote, without_votes_to, acceptor_with, with_written};
ghost use Rattle.lk_acceptor.specs.VoteLists.{votes_from};
ghost use Rattle.lk_acceptor.specs.declared.response.Response.{Response};

/// Keeping a granted vote, and forgetting votes that a snapshot replaces, are changes that the protocol permits.
pub fn vote_changes_are_permitted()
    ensures vote { (a : AcceptorValue) (e : ℕ) (x : Vote) → IsOrdered a.state → GrantsAccept a e x
        → AddsVote a.state x (with_vote a.state x) }
    ensures snapshot { (s : AcceptorState) (i : ℕ) → s.snapshot_position ≤ i
        → ForgetsVotes s i (without_votes_to s i) }
{}

/// A node whose acceptor is in the state after the call may send the reply, in every history.
pub fn a_reply_may_be_sent()
    ensures prepare { (genesis : Genesis) (sent : List Datagram) (w : PaxosState) (a : AcceptorValue) (e : ℕ)
        (b : BallotValue) (first : ℕ) (r : Response) (new : AcceptorValue)
        → RepliesToPrepare a e b first r new → w.acceptor ≡ new.state → MaySend genesis sent w r.reply }
    ensures accept { (genesis : Genesis) (sent : List Datagram) (w : PaxosState) (a : AcceptorValue) (e : ℕ) (x : Vote)
        (r : Response) (new : AcceptorValue)
        → IsOrdered a.state → RepliesToAccept a e x r new → w.acceptor ≡ new.state → MaySend genesis sent w r.reply }
{}

/// The state after the call covers the reply: it holds what the reply commits the node to.
pub fn a_reply_is_covered()
    ensures prepare { (a : AcceptorValue) (e : ℕ) (b : BallotValue) (first : ℕ) (r : Response) (new : AcceptorValue)
        → RepliesToPrepare a e b first r new → Covers new.state r.reply }
    ensures accept { (a : AcceptorValue) (e : ℕ) (x : Vote) (r : Response) (new : AcceptorValue) → IsOrdered a.state
        → RepliesToAccept a e x r new → Covers new.state r.reply }
{}

/// Applying the response's entry, if there is one, to the state before the call gives the state after it. So a restart
/// recovers that state from the entries.
pub fn entries_tell_what_is_held()
    ensures prepare { (a : AcceptorValue) (e : ℕ) (b : BallotValue) (first : ℕ) (r : Response) (new : AcceptorValue)
        → RepliesToPrepare a e b first r new → new.state ≡ with_written r.entry a.state }
    ensures accept { (a : AcceptorValue) (e : ℕ) (x : Vote) (r : Response) (new : AcceptorValue) → IsOrdered a.state
        → RepliesToAccept a e x r new → new.state ≡ with_written r.entry a.state }
    ensures own { (s : AcceptorState) (b : BallotValue) → IsBelow s.promised b
        → with_promise s b ≡ acceptor_with (entry.Promise b) s }
{}

/// The state before the call and the message determine the response, its entry and the state after the call.
pub fn there_is_one_reply()
    ensures prepare { (a : AcceptorValue) (e : ℕ) (b : BallotValue) (first : ℕ) (r q : Response)
        (new other : AcceptorValue)
        → RepliesToPrepare a e b first r new → RepliesToPrepare a e b first q other → (r ≡ q) × (new ≡ other) }
    ensures accept { (a : AcceptorValue) (e : ℕ) (x : Vote) (r q : Response) (new other : AcceptorValue)
        → RepliesToAccept a e x r new → RepliesToAccept a e x q other → (r ≡ q) × (new ≡ other) }
{}

/// Votes that rise strictly by position within `n` positions are at most `n`, so they fit into a Promise and into a
/// Base of the store.
pub fn rising_votes_are_few()
    ensures { (low n : ℕ) (votes : List Vote) → IsTrue (are_votes_above low votes)
        → ((v : Vote) → Contains votes v → v.position ≤ low + n) → length votes ≤ n }
{}

/// A Promise has at most twice alpha votes.
pub fn a_promise_has_few_votes()
    ensures { (a : AcceptorValue) (b : BallotValue) (first : ℕ) → IsOrdered a.state → GrantsPrepare a b first
        → length (votes_from first a.state.votes) ≤ 2 * a.alpha }
{}
