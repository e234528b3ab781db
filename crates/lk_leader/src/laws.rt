//! Laws of a leader's calls, about the definitions alone: each is the contract of a function without a body.
ghost use Rattle.std.specs.Prelude.{◌≡◌, ◌⊎◌, ◌+◌, ◌≤◌, ℕ, List, length, Contains};
ghost use Rattle.lk_types.specs.BallotValue.{BallotValue};
ghost use Rattle.lk_types.specs.declared.member.Member.{Member};
ghost use Rattle.lk_types.specs.declared.vote.Vote.{Vote};
ghost use Rattle.lk_members.specs.Effects.{Command, RequestValue, Noop, Request};
ghost use Rattle.lk_members.specs.Rosters.{Genesis, members};
ghost use Rattle.lk_members.specs.Majorities.{IsMajority};
ghost use Rattle.lk_members.specs.Windows.{RosterValue, RosterSumsUp};
ghost use Rattle.lk_agreement_laws.specs.Soundness.{IsPromisedVote};
ghost use Rattle.lk_agreement_laws.specs.Nodes.{Term, new_term};
ghost use Rattle.lk_agreement_laws.specs.Changes.{MayPropose, with_received, with_proposal, with_acceptance};
ghost use Rattle.lk_leader.specs.Terms.{ReceivedPromise, ProposalValue, TermValue, begun, with_proposals};
ghost use Rattle.lk_leader.specs.Terms as terms;
ghost use Rattle.lk_leader.specs.Values.{IsLeadersValue};
ghost use Rattle.lk_leader.specs.Proposing.{IsNext, Proposes, proposed};
ghost use Rattle.lk_leader.specs.Acceptances.{members_among, heard, heard_at, IsVoteFor, GainsMajority};
ghost use Rattle.lk_leader.specs.Waits.{asked, left_by, AreOneEach};
ghost use Rattle.lk_leader.specs.LedTerms.{AgreesWithTerm};

/// The protocol permits what a leader proposes, if its roster is that of the executed list. A proposed command was
/// reported, or waits, or is a no-op: nothing is ever proposed that was not asked.
pub fn what_is_proposed_is_allowed()
    ensures allowed { (genesis : Genesis) (done : List Command) (t : Term) (k : TermValue)
        (waiting : List RequestValue) (roster : RosterValue) (i : ℕ) (v : Command)
        → RosterSumsUp genesis done roster → AgreesWithTerm roster.executed (length roster.sets) t k
        → Proposes k waiting roster i v → MayPropose genesis done t i v }
    ensures asked { (executed alpha : ℕ) (t : Term) (k : TermValue) (waiting : List RequestValue)
        (roster : RosterValue) (set : List Member) (i : ℕ) (v : Command)
        → AgreesWithTerm executed alpha t k → IsLeadersValue k waiting roster set i v
        → ((x : Vote) × IsPromisedVote t.received x × (x.command ≡ v))
        ⊎ (((q : RequestValue) × Contains waiting q × (v ≡ Request q)) ⊎ (v ≡ Noop)) }
{}

/// A proposal that gains a majority was accepted by a majority of the members that the executed list gives its
/// position, and the history's term records each acceptance.
pub fn what_gains_a_majority_was_accepted()
    ensures { (genesis : Genesis) (done : List Command) (t : Term) (k : TermValue) (roster : RosterValue)
        (b : BallotValue) (node i : ℕ) (v : Command) (set : List Member) (p : ProposalValue)
        → RosterSumsUp genesis done roster → i ≤ roster.executed + length roster.sets
        → AgreesWithTerm roster.executed (length roster.sets) t k → IsVoteFor k roster b i v set p
        → GainsMajority set node p
        → (i ≤ length done + genesis.alpha)
        × IsMajority (members_among set (heard set node p).accepted) (members genesis done i)
        × ((n : ℕ) → Contains (members_among set (heard set node p).accepted) n
        → Contains (with_acceptance t (record { node = node; position = i; command = v })).accepted
        (record { node = n; position = i; command = v })) }
{}

/// A leader's state continues to agree with its term in the history, whatever it hears, proposes or decides, and as
/// more is executed.
pub fn a_leader_keeps_its_term()
    ensures begins { (executed alpha : ℕ) (b : BallotValue) → AgreesWithTerm executed alpha (new_term b) (begun b) }
    ensures later { (executed later alpha : ℕ) (t : Term) (k : TermValue) → executed ≤ later
        → AgreesWithTerm executed alpha t k → AgreesWithTerm later alpha t k }
    ensures hears { (executed alpha : ℕ) (t : Term) (k : TermValue) (r : ReceivedPromise)
        → AgreesWithTerm executed alpha t k
        → AgreesWithTerm executed alpha (with_received t r) (terms.with_received r k) }
    ensures proposes { (t : Term) (k : TermValue) (roster : RosterValue) (i : ℕ) (v : Command)
        → IsNext roster k.proposals i → AgreesWithTerm roster.executed (length roster.sets) t k
        → AgreesWithTerm roster.executed (length roster.sets) (with_proposal t (i, v)) (proposed roster i v k) }
    ensures gains { (executed alpha : ℕ) (t : Term) (k : TermValue) (roster : RosterValue) (b : BallotValue)
        (node i : ℕ) (v : Command) (set : List Member) (p : ProposalValue)
        → IsVoteFor k roster b i v set p → AgreesWithTerm executed alpha t k
        → AgreesWithTerm executed alpha (with_acceptance t (record { node = node; position = i; command = v }))
        (with_proposals (heard_at set node i k.proposals) k) }
{}

/// At most one request of each client waits, whatever is queued or removed.
pub fn one_request_waits_a_client()
    ensures asked { (r : RequestValue) (waiting : List RequestValue) → AreOneEach waiting
        → AreOneEach (asked r waiting) }
    ensures left { (client number : ℕ) (waiting : List RequestValue) → AreOneEach waiting
        → AreOneEach (left_by client number waiting) }
{}
