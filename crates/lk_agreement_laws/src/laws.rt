//! Why chosen lists agree: laws about the definitions alone. A function without a body ensures each of them.
ghost use Rattle.std.specs.Prelude.{◌≡◌, ◌<◌, ◌≤◌, ◌+◌, ◌==◌, nat_lt, nat_le, not, filter, ◌⊎◌, ℕ, suc, List, [], ◌∷◌};
ghost use Rattle.std.specs.Prelude.{◌++◌, length, take, drop, Some, None, Contains};
ghost use Rattle.lk_types.specs.Limits.{max_count};
ghost use Rattle.lk_messages.specs.Grammar.{Spells};
ghost use Rattle.lk_messages.specs.Values.{PromiseValue};
ghost use Rattle.lk_members.specs.Rosters.{members};
ghost use Rattle.lk_members.specs.Majorities.{IsMajority};
ghost use Rattle.lk_types.specs.Ranges.{IsCount};
ghost use Rattle.lk_types.specs.Commands.{IsCommand};
ghost use Rattle.lk_agreement_laws.specs.Ballots.{BallotValue};
ghost use Rattle.lk_agreement_laws.specs.Datagrams.{Genesis, Vote, Datagram, NodeMessage, Accepted, said_by, HasSent};
ghost use Rattle.lk_agreement_laws.specs.Chosen.{Command, command_at, Chosen, ChosenAt, IsPrefix};
ghost use Rattle.lk_agreement_laws.specs.Soundness.{Sound};
ghost use Rattle.lk_agreement_laws.specs.Acceptors.{AcceptorState, CoversSent, AddsVote, ForgetsVotes};
ghost use Rattle.lk_agreement_laws.specs.Nodes.{Term, PaxosState, Stems, PaxosFits, MayPromise, MaySendDatagrams};
ghost use Rattle.lk_agreement_laws.specs.Changes.{with_paxos_term, Changes, Becomes};
ghost use Rattle.lk_agreement_laws.specs.Snapshots.{IsSlice};
ghost use Rattle.lk_agreement_laws.specs.Worlds.{PaxosWorld, start, with_sent, with_paxos, IsClientRequest};
ghost use Rattle.lk_agreement_laws.specs.Worlds.{IsReachable};
ghost use Rattle.lk_agreement_laws.specs.Worlds.{WorldFits};
ghost use Rattle.lk_agreement_laws.specs.Worlds.{IsKept, MembersChange};

/// Of two chosen lists of a sound history one is a prefix of the other, and they name the same members.
pub fn chosen_lists_agree()
    ensures lists { (genesis : Genesis) (sent : List Datagram) (L K : List Command) → Sound genesis sent
        → Chosen genesis sent L → Chosen genesis sent K → IsPrefix L K ⊎ IsPrefix K L }
    ensures members { (genesis : Genesis) (sent : List Datagram) (L K : List Command) (i : ℕ) → Sound genesis sent
        → Chosen genesis sent L → Chosen genesis sent K → i ≤ length L + genesis.alpha → i ≤ length K + genesis.alpha
        → members genesis L i ≡ members genesis K i }
{}

/// At most one command is chosen at a position, even beyond a gap.
pub fn one_command_a_position()
    ensures { (genesis : Genesis) (sent : List Datagram) (i : ℕ) (v w : Command) → Sound genesis sent
        → ChosenAt genesis sent i v → ChosenAt genesis sent i w → v ≡ w }
{}

/// A chosen list stays chosen whatever is sent later. With the command that is chosen at its next position it is
/// chosen too, and each of its commands is chosen at its position. A prefix of it is chosen.
pub fn chosen_lists_grow()
    ensures later { (genesis : Genesis) (sent new : List Datagram) (L : List Command)
        → Chosen genesis sent L → Chosen genesis (sent ++ new) L }
    ensures longer { (genesis : Genesis) (sent : List Datagram) (L : List Command) (v : Command) → Sound genesis sent
        → Chosen genesis sent L → ChosenAt genesis sent (suc (length L)) v → Chosen genesis sent (L ++ v ∷ []) }
    ensures each { (genesis : Genesis) (sent : List Datagram) (L : List Command) (i : ℕ) (v : Command)
        → Chosen genesis sent L → command_at L i ≡ Some v → ChosenAt genesis sent i v }
    ensures prefix { (genesis : Genesis) (sent : List Datagram) (L : List Command) (k : ℕ)
        → Chosen genesis sent L → Chosen genesis sent (take k L) }
{}

/// A majority of the members that a chosen list names for a position has accepted its command there, and keeps it. Each
/// node of that majority keeps it in every state that covers what the node has sent and stems from what was sent, and
/// so in every image of its disk.
pub fn chosen_commands_are_kept()
    ensures { (genesis : Genesis) (sent : List Datagram) (L : List Command) (i : ℕ) (v : Command) → Sound genesis sent
        → Chosen genesis sent L → command_at L i ≡ Some v
        → IsKept genesis sent L i v (λ n state. CoversSent genesis sent n state.acceptor × Stems genesis sent state) }
{}

/// What a majority of the members that the executed list names has accepted in a term is chosen.
pub fn what_a_majority_accepted_is_chosen()
    ensures { (genesis : Genesis) (sent : List Datagram) (n : ℕ) (w : PaxosState) (t : Term) (i : ℕ)
        (v : Command) (nodes : List ℕ)
        → PaxosFits genesis sent n w → w.term ≡ Some t → i ≤ length w.done + genesis.alpha
        → IsMajority nodes (members genesis w.done i)
        → ((k : ℕ) → Contains nodes k → Contains t.accepted (record { node = k; position = i; command = v }))
        → ChosenAt genesis sent i v }
{}

/// What is chosen at a position was sent as accepted by some node there. So each command of a chosen list and its
/// position are in their ranges, and the list has at most 2^48 commands.
pub fn what_is_chosen_was_accepted()
    ensures sent { (genesis : Genesis) (sent : List Datagram) (i : ℕ) (v : Command) → ChosenAt genesis sent i v
        → (n : ℕ) × (b : BallotValue)
        × HasSent genesis sent n (Accepted (record { position = i; ballot = b; command = v })) }
    ensures in_range { (genesis : Genesis) (sent : List Datagram) (L : List Command) (i : ℕ) (v : Command)
        → Chosen genesis sent L → command_at L i ≡ Some v → IsCount i × IsCommand v }
    ensures short { (genesis : Genesis) (sent : List Datagram) (L : List Command)
        → Chosen genesis sent L → length L ≤ max_count }
{}

/// In a sound history the node that a datagram names as its sender has sent it.
pub fn what_is_heard_was_sent()
    ensures { (genesis : Genesis) (sent : List Datagram) (d : Datagram) (n : ℕ) (m : NodeMessage) → Sound genesis sent
        → Contains sent d → Spells (said_by genesis n m) d.bytes → HasSent genesis sent n m }
{}

/// The world in which nothing was sent fits: its history is sound, and every node fits it.
pub fn the_start_fits()
    ensures { (genesis : Genesis) → WorldFits genesis start }
{}

/// A node that fits what was sent still fits it after any changes. The law needs this node's state alone, so a node
/// that knows of no other can establish it.
pub fn changes_keep_the_node()
    ensures { (genesis : Genesis) (sent : List Datagram) (n : ℕ) (old new : PaxosState) → Sound genesis sent
        → PaxosFits genesis sent n old
        → Becomes genesis sent n old new → PaxosFits genesis sent n new }
{}

/// A change within a node leaves the history sound and every node fitting.
pub fn changes_keep_the_world()
    ensures { (genesis : Genesis) (w : PaxosWorld) (n : ℕ) (new : PaxosState) → WorldFits genesis w
        → Becomes genesis w.sent n (w.states n) new → WorldFits genesis (with_paxos w n new) }
{}

/// Whatever a node is permitted to send in its present state, and a client's request, leave the history sound and every
/// node fitting.
pub fn sends_keep_the_world()
    ensures node { (genesis : Genesis) (w : PaxosWorld) (n : ℕ) (batch : List Datagram) → WorldFits genesis w
        → MaySendDatagrams genesis w.sent n (w.states n) batch → WorldFits genesis (with_sent w batch) }
    ensures client { (genesis : Genesis) (w : PaxosWorld) (d : Datagram) → WorldFits genesis w
        → IsClientRequest d → WorldFits genesis (with_sent w (d ∷ [])) }
{}

/// A restart, without a term, from any image that covers what its node has sent and stems from what was sent leaves the
/// history sound and every node fitting.
pub fn restarts_keep_the_world()
    ensures { (genesis : Genesis) (w : PaxosWorld) (n : ℕ) (recovered : PaxosState) → WorldFits genesis w
        → CoversSent genesis w.sent n recovered.acceptor → Stems genesis w.sent recovered → recovered.term ≡ None
        → WorldFits genesis (with_paxos w n recovered) }
{}

/// An image that covers what its node has sent, and what it sends next, covers both together. So if each call syncs
/// before it sends, every image still covers its node's messages. What other nodes send changes nothing for an image
/// (`others`), and what an image holds still stems from what was sent.
pub fn images_go_on_covering()
    ensures sender { (genesis : Genesis) (sent batch : List Datagram) (n : ℕ) (recovered : PaxosState)
        → CoversSent genesis sent n recovered.acceptor → CoversSent genesis batch n recovered.acceptor
        → CoversSent genesis (sent ++ batch) n recovered.acceptor }
    ensures others { (genesis : Genesis) (w : PaxosWorld) (n k : ℕ) (batch : List Datagram) (recovered : PaxosState)
        → MaySendDatagrams genesis w.sent n (w.states n) batch → (n ≡ k → ⊥)
        → CoversSent genesis w.sent k recovered.acceptor → CoversSent genesis (w.sent ++ batch) k recovered.acceptor }
    ensures stems { (genesis : Genesis) (sent new : List Datagram) (recovered : PaxosState)
        → Stems genesis sent recovered → Stems genesis (sent ++ new) recovered }
{}

/// The simple ways to keep votes in a list are permitted: a vote replaces any other for its position, a snapshot
/// replaces those up to its position, and a promise reports those from its first position on.
pub fn votes_may_be_kept_in_a_list()
    ensures vote { (old new : AcceptorState) (x : Vote) → new.promised ≡ x.ballot
        → new.snapshot_position ≡ old.snapshot_position
        → new.votes ≡ filter (λ y. not (y.position == x.position)) old.votes ++ x ∷ [] → AddsVote old x new }
    ensures snapshot { (old new : AcceptorState) (i : ℕ) → old.snapshot_position ≤ i → new.promised ≡ old.promised
        → new.snapshot_position ≡ i
        → new.votes ≡ filter (λ y. nat_lt i y.position) old.votes → ForgetsVotes old i new }
    ensures promise { (s : AcceptorState) (p : PromiseValue) → s.promised ≡ p.ballot → s.snapshot_position < p.first
        → p.votes ≡ filter (λ y. nat_le p.first y.position) s.votes → MayPromise s p }
{}

/// Slices of snapshots of one position, from any nodes, make one text, which when complete is that of a
/// chosen list. Slices of the text of a prefix of a chosen list are such.
pub fn slices_concatenate()
    ensures concatenate { (genesis : Genesis) (sent : List Datagram) (text : List Command → List ℕ) (position total : ℕ)
        (gathered bytes : List ℕ)
        → Sound genesis sent → IsSlice genesis sent text position total 0 gathered
        → IsSlice genesis sent text position total (length gathered) bytes
        → IsSlice genesis sent text position total 0 (gathered ++ bytes) }
    ensures whole { (genesis : Genesis) (sent : List Datagram) (text : List Command → List ℕ)
        (position total : ℕ) (bytes : List ℕ)
        → IsSlice genesis sent text position total 0 bytes → length bytes ≡ total
        → (L : List Command) × Chosen genesis sent L × (length L ≡ position) × (bytes ≡ text L) }
    ensures later { (genesis : Genesis) (sent new : List Datagram) (text : List Command → List ℕ)
        (position total offset : ℕ) (bytes : List ℕ)
        → IsSlice genesis sent text position total offset bytes
        → IsSlice genesis (sent ++ new) text position total offset bytes }
    ensures prefix { (genesis : Genesis) (sent : List Datagram) (text : List Command → List ℕ) (L : List Command)
        (position offset : ℕ) (bytes : List ℕ)
        → Chosen genesis sent L → position ≤ length L
        → bytes ≡ take (length bytes) (drop offset (text (take position L)))
        → IsSlice genesis sent text position (length (text (take position L))) offset bytes }
{}

/// What `IsReachable` permits in any order: nodes send what they may, clients ask, and nodes change. A node may stop at
/// any time and restart, without a term, from any image that covers what it has sent and stems from what was sent. Its
/// term may end at any time (`leaves`).
pub fn worlds_come_about()
    ensures begins { (genesis : Genesis) → IsReachable genesis start }
    ensures sends { (genesis : Genesis) (w : PaxosWorld) (n : ℕ) (batch : List Datagram) → IsReachable genesis w
        → MaySendDatagrams genesis w.sent n (w.states n) batch → IsReachable genesis (with_sent w batch) }
    ensures asks { (genesis : Genesis) (w : PaxosWorld) (d : Datagram) → IsReachable genesis w
        → IsClientRequest d → IsReachable genesis (with_sent w (d ∷ [])) }
    ensures changes { (genesis : Genesis) (w : PaxosWorld) (n : ℕ) (new : PaxosState) → IsReachable genesis w
        → Changes genesis w.sent n (w.states n) new → IsReachable genesis (with_paxos w n new) }
    ensures restarts { (genesis : Genesis) (w : PaxosWorld) (n : ℕ) (recovered : PaxosState) → IsReachable genesis w
        → CoversSent genesis w.sent n recovered.acceptor → Stems genesis w.sent recovered → recovered.term ≡ None
        → IsReachable genesis (with_paxos w n recovered) }
    ensures leaves { (genesis : Genesis) (w : PaxosWorld) (n : ℕ) → IsReachable genesis w
        → IsReachable genesis (with_paxos w n (with_paxos_term (w.states n) None)) }
{}

/// In every reachable world chosen lists agree, and a majority keeps each command of a chosen list.
pub fn every_world_agrees()
    ensures fits { (genesis : Genesis) (w : PaxosWorld) → IsReachable genesis w → WorldFits genesis w }
    ensures agree { (genesis : Genesis) (w : PaxosWorld) (L K : List Command) → IsReachable genesis w
        → Chosen genesis w.sent L → Chosen genesis w.sent K → IsPrefix L K ⊎ IsPrefix K L }
    ensures kept { (genesis : Genesis) (w : PaxosWorld) (L : List Command) (i : ℕ) (v : Command) → IsReachable genesis w
        → Chosen genesis w.sent L → command_at L i ≡ Some v
        → IsKept genesis w.sent L i v (λ n state. state ≡ w.states n) }
{}

/// The laws are not vacuous: some world is reachable in which members change. Node 1 alone decides the first command of
/// a chosen list, which makes node 2 a member, and both decide the second.
pub fn members_change_in_some_world()
    ensures some { (genesis : Genesis) × (w : PaxosWorld) × (L : List Command) × MembersChange genesis w L }
    ensures plain { (genesis : Genesis) × (w : PaxosWorld) × (L : List Command) × IsReachable genesis w
        × Chosen genesis w.sent L × (length L ≡ 2)
        × (members genesis L 1 ≡ record { node = 1; port = 7001 } ∷ [])
        × (members genesis L 2 ≡ record { node = 1; port = 7001 } ∷ record { node = 2; port = 7002 } ∷ []) }
{}
