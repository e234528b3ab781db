//! Laws of a learner's calls, about the definitions alone: each is the contract of a function without a body.
ghost use Rattle.std.specs.Prelude.{◌≡◌, ◌+◌, ◌-◌, ◌*◌, ◌<◌, ◌≤◌, ℕ, suc, List, [], ◌∷◌, ◌++◌, length, take, drop};
ghost use Rattle.std.specs.Prelude.{Contains, Option, Some, slice_get};
ghost use Rattle.lk_agreement_laws.specs.Datagrams.{Genesis, Datagram, Decided};
ghost use Rattle.lk_agreement_laws.specs.Chosen.{command_at, Chosen, ChosenAt};
ghost use Rattle.lk_agreement_laws.specs.Soundness.{Sound};
ghost use Rattle.lk_agreement_laws.specs.Snapshots.{IsSlice};
ghost use Rattle.lk_messages.specs.Values.{PartValue};
ghost use Rattle.lk_agreement_laws.specs.Nodes.{PaxosState, Stems, MaySend};
ghost use Rattle.lk_agreement_laws.specs.Changes.{with_done, Changes};
ghost use Rattle.lk_state.specs.Meanings.{Meaning};
ghost use Rattle.lk_state.specs.States.{SumsUp};
ghost use Rattle.lk_learner.specs.Pairs.{AreKept, without};
ghost use Rattle.lk_learner.specs.Learners.{Command, Pair, WholeValue, LearnerValue, executed, begun, keeping, IsNext};
ghost use Rattle.lk_learner.specs.Learners.{advanced, IsRetained, decided_from};
ghost use Rattle.lk_learner.specs.Following.{AgreesWithList};
ghost use Rattle.lk_learner.specs.Learners.{GatheredValue};
ghost use Rattle.lk_learner.specs.Gathering.{heard};
ghost use Rattle.lk_learner.specs.Installing.{pairs_above, installed};
ghost use Rattle.lk_learner.specs.Parts.{AreParts};

/// Kept pairs are at the next 2 alpha positions, at most one at each, so there are at most 2 alpha. When the next one
/// is executed there is one less.
pub fn kept_pairs_are_near_and_few()
    ensures near { (e alpha : ℕ) (pairs : List Pair) → AreKept e alpha pairs → (p : Pair) → Contains pairs p
        → (e < p.0) × (p.0 ≤ e + 2 * alpha) }
    ensures once { (e alpha : ℕ) (pairs : List Pair) → AreKept e alpha pairs → (i : ℕ) (v w : Command)
        → Contains pairs (i, v) → Contains pairs (i, w) → v ≡ w }
    ensures few { (e alpha : ℕ) (pairs : List Pair) → AreKept e alpha pairs → length pairs ≤ 2 * alpha }
    ensures fewer { (e alpha : ℕ) (pairs : List Pair) (v : Command) → AreKept e alpha pairs → Contains pairs (e + 1, v)
        → suc (length (without (e + 1) pairs)) ≡ length pairs }
{}

/// A learner's state agrees with a list when it is created, and continues to when it keeps a pair or executes a
/// command. After it installs the state of another list it agrees with that one.
pub fn a_learner_follows_its_list()
    ensures begins { (m : Meaning) (genesis : Genesis) (done : List Command) (w : WholeValue) → SumsUp m genesis done w
        → AgreesWithList m genesis done [] (begun w) }
    ensures keeps { (m : Meaning) (genesis : Genesis) (done : List Command) (pairs : List Pair)
        (l : LearnerValue) (p : Pair)
        → AgreesWithList m genesis done pairs l → AgreesWithList m genesis done (pairs ++ p ∷ []) (keeping p l) }
    ensures runs { (m : Meaning) (genesis : Genesis) (done : List Command) (pairs : List Pair)
        (l : LearnerValue) (v : Command)
        → AgreesWithList m genesis done pairs l
        → AgreesWithList m genesis (done ++ v ∷ []) (advanced m v l).pairs (advanced m v l) }
    ensures installs { (m : Meaning) (genesis : Genesis) (done L : List Command) (pairs : List Pair)
        (l : LearnerValue) (w : WholeValue)
        → AgreesWithList m genesis done pairs l → SumsUp m genesis L w
        → AgreesWithList m genesis L (pairs_above w.roster.executed pairs) (installed w l) }
{}

/// The command that a learner executes next is chosen at the position after its list, so the list with it is chosen: a
/// learner never executes a pair beyond a gap.
pub fn what_is_run_is_chosen()
    ensures chosen { (m : Meaning) (genesis : Genesis) (sent : List Datagram) (w : PaxosState) (l : LearnerValue)
        (v : Command) → Sound genesis sent → Stems genesis sent w
        → AgreesWithList m genesis w.done w.pairs l → IsNext l v → Chosen genesis sent (w.done ++ v ∷ []) }
    ensures there { (m : Meaning) (genesis : Genesis) (done : List Command) (pairs : List Pair)
        (l : LearnerValue) (v : Command)
        → AgreesWithList m genesis done pairs l → command_at (done ++ v ∷ []) (executed l + 1) ≡ Some v }
{}

/// The protocol permits a node to keep a chosen pair, and to execute the next command.
pub fn a_learner_changes_as_it_may()
    ensures learns { (genesis : Genesis) (sent : List Datagram) (n : ℕ) (w : PaxosState) (i : ℕ) (v : Command)
        → ChosenAt genesis sent i v
        → Changes genesis sent n w (with_done w w.done (w.pairs ++ (i, v) ∷ [])) }
    ensures executes { (m : Meaning) (genesis : Genesis) (sent : List Datagram) (n : ℕ) (w : PaxosState)
        (l : LearnerValue) (v : Command) → AgreesWithList m genesis w.done w.pairs l → IsNext l v
        → Changes genesis sent n w (with_done w (w.done ++ v ∷ []) (advanced m v l).pairs) }
{}

/// A node may send the commands that its learner serves, and they are those of the executed list.
pub fn what_is_served_is_chosen()
    ensures may { (m : Meaning) (genesis : Genesis) (sent : List Datagram) (w : PaxosState) (l : LearnerValue)
        (first : ℕ) → Stems genesis sent w → AgreesWithList m genesis w.done w.pairs l
        → IsRetained l first → MaySend genesis sent w (Decided (decided_from first l)) }
    ensures there { (m : Meaning) (genesis : Genesis) (done : List Command) (pairs : List Pair) (l : LearnerValue)
        (i : ℕ) (v : Command) → AgreesWithList m genesis done pairs l
        → l.snapshot_position < i → slice_get l.retained (i - (l.snapshot_position + 1)) ≡ Some v
        → command_at done i ≡ Some v }
{}

/// Each served part of a text is a slice of it, with the text's length as its total.
pub fn parts_that_are_served_are_slices()
    ensures { (position start k : ℕ) (text : List ℕ) (parts : List PartValue) (p : PartValue)
        → AreParts position text start parts → slice_get parts k ≡ Some p
        → (p.position ≡ position) × (p.total ≡ length text) × (p.bytes ≡ take (length p.bytes) (drop p.offset text)) }
{}

/// A text gathered from parts that are slices of the snapshots of chosen lists, from whichever nodes, is a prefix of
/// such a snapshot's text.
pub fn what_is_gathered_is_a_prefix()
    ensures { (genesis : Genesis) (sent : List Datagram) (text : List Command → List ℕ) (e : ℕ) (p : PartValue)
        (old : Option GatheredValue) (g : GatheredValue) → Sound genesis sent
        → IsSlice genesis sent text p.position p.total p.offset p.bytes
        → ((k : GatheredValue) → old ≡ Some k → IsSlice genesis sent text k.position k.total 0 k.bytes)
        → heard e old p ≡ Some g → IsSlice genesis sent text g.position g.total 0 g.bytes }
{}
