//! Laws of bundles. Each is stated as a function without a body.

ghost use Rattle.std.specs.Prelude.{◌≡◌, ℕ, List, length, drop};
ghost use Rattle.lk_auth.specs.Frames.{sealed};
ghost use Rattle.lk_auth.specs.declared.frame.Scope.{Scope};
ghost use Rattle.lk_messages.specs.Grammar.{Spells};
ghost use Rattle.lk_messages.specs.declared.message.Message.{Message};
ghost use Rattle.lk_probe.specs.Grammar.{SpellsProbe, SpellsReport};
ghost use Rattle.lk_probe.specs.declared.probe.Probe.{Probe};
ghost use Rattle.lk_probe.specs.declared.probe.Report.{Report};
ghost use Rattle.lk_bundle.specs.Bundles.{Bundles, datagrams_in};

/// Bytes bundle one list of datagrams at most.
pub fn one_meaning()
    ensures { (ds es : List (List ℕ)) (bytes : List ℕ) → Bundles ds bytes → Bundles es bytes → ds ≡ es }
{}

/// Splitting a bundle gives its datagrams back, in order.
pub fn is_split()
    ensures { (ds : List (List ℕ)) (bytes : List ℕ) → Bundles ds bytes
        → datagrams_in (length ds) (drop 4 bytes) ≡ ds }
{}

/// No bundle is a datagram of the protocol, a probe, a report or a frame.
pub fn is_nothing_else()
    ensures message { (ds : List (List ℕ)) (m : Message) (bytes : List ℕ) → Bundles ds bytes → Spells m bytes → ⊥ }
    ensures probe { (ds : List (List ℕ)) (p : Probe) (bytes : List ℕ) → Bundles ds bytes → SpellsProbe p bytes → ⊥ }
    ensures report { (ds : List (List ℕ)) (r : Report) (bytes : List ℕ) → Bundles ds bytes → SpellsReport r bytes → ⊥ }
    ensures frame { (ds : List (List ℕ)) (key : List ℕ) (s : Scope) (d bytes : List ℕ) → Bundles ds bytes
        → bytes ≡ sealed key s d → ⊥ }
{}
