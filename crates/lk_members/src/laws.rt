//! Laws (theorems) about the definitions: each is an empty function, whose contract is the theorem.
ghost use Rattle.std.specs.Prelude.{◌≡◌, ℕ, ◌+◌, ◌≤◌, ◌∷◌, ◌++◌, Some, List, length, Contains};
ghost use Rattle.lk_members.specs.Effects.{Command, RequestValue, PositionedEntry, positioned, in_effect};
ghost use Rattle.lk_members.specs.Rosters.{Genesis, Member, members};
ghost use Rattle.lk_members.specs.Majorities.{IsMajority};

/// The list begins with the commands before a positioned entry, followed by that entry.
pub fn entries_follow_their_predecessors()
    ensures { (L : List Command) (p : PositionedEntry) → Contains (positioned L) p
        → (rest : List Command) × (L ≡ p.before ++ (p.entry ∷ rest)) }
{}

/// At most one entry of a list takes effect for a client and a number.
pub fn numbers_take_effect_once()
    ensures { (L : List Command) (p q : PositionedEntry) (r s : RequestValue) → Contains (positioned L) p
        → Contains (positioned L) q → in_effect p.before p.entry ≡ Some r → in_effect q.before q.entry ≡ Some s
        → r.client ≡ s.client → r.number ≡ s.number → p ≡ q }
{}

/// Two majorities of one set share a node.
pub fn majorities_meet()
    ensures { (set : List Member) (W V : List ℕ) → IsMajority W set → IsMajority V set
        → (n : ℕ) × Contains W n × Contains V n }
{}

/// Commands after the end of a list do not change the members of positions up to alpha after that end.
pub fn members_stay()
    ensures { (genesis : Genesis) (L rest : List Command) (i : ℕ) → i ≤ length L + genesis.alpha
        → members genesis (L ++ rest) i ≡ members genesis L i }
{}
