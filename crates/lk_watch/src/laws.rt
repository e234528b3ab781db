//! Laws of the datagrams of watches and notices. Each is stated as a function without a body.

ghost use Rattle.std.specs.Prelude.{◌≡◌, List, ℕ, length};
ghost use Rattle.lk_auth.specs.Clients.{client_in};
ghost use Rattle.lk_auth.specs.Frames.{sealed};
ghost use Rattle.lk_auth.specs.Seals.{only_request};
ghost use Rattle.lk_auth.specs.declared.frame.Scope.{Scope};
ghost use Rattle.lk_messages.specs.declared.message.Message.{Message};
ghost use Rattle.lk_messages.specs.Grammar.{Spells};
ghost use Rattle.lk_probe.specs.Grammar.{SpellsProbe, SpellsReport};
ghost use Rattle.lk_probe.specs.declared.probe.Probe.{Probe};
ghost use Rattle.lk_probe.specs.declared.probe.Report.{Report};
ghost use Rattle.lk_bundle.specs.Bundles.{Bundles};
ghost use Rattle.lk_watch.specs.declared.watch.Watch.{Watch};
ghost use Rattle.lk_watch.specs.declared.notice.Notice.{Notice};
ghost use Rattle.lk_watch.specs.Grammar.{SpellsWatch, SpellsNotice};

/// Bytes spell one watch at most, and one notice at most.
pub fn one_meaning()
    ensures watch { (v w : Watch) (bytes : List ℕ) → SpellsWatch v bytes → SpellsWatch w bytes → v ≡ w }
    ensures notice { (m n : Notice) (bytes : List ℕ) → SpellsNotice m bytes → SpellsNotice n bytes → m ≡ n }
{}

/// Each watch and each notice has 71 bytes.
pub fn lengths()
    ensures watch { (w : Watch) (bytes : List ℕ) → SpellsWatch w bytes → length bytes ≡ 71 }
    ensures notice { (n : Notice) (bytes : List ℕ) → SpellsNotice n bytes → length bytes ≡ 71 }
{}

/// No watch is a notice, a datagram of the protocol, a probe, a report, a bundle or a frame.
pub fn watch_is_nothing_else()
    ensures notice { (w : Watch) (n : Notice) (bytes : List ℕ) → SpellsWatch w bytes → SpellsNotice n bytes → ⊥ }
    ensures message { (w : Watch) (m : Message) (bytes : List ℕ) → SpellsWatch w bytes → Spells m bytes → ⊥ }
    ensures probe { (w : Watch) (p : Probe) (bytes : List ℕ) → SpellsWatch w bytes → SpellsProbe p bytes → ⊥ }
    ensures report { (w : Watch) (r : Report) (bytes : List ℕ) → SpellsWatch w bytes → SpellsReport r bytes → ⊥ }
    ensures bundle { (w : Watch) (ds : List (List ℕ)) (bytes : List ℕ) → SpellsWatch w bytes → Bundles ds bytes → ⊥ }
    ensures frame { (w : Watch) (key : List ℕ) (s : Scope) (d bytes : List ℕ) → SpellsWatch w bytes
        → bytes ≡ sealed key s d → ⊥ }
{}

/// No notice is a datagram of the protocol, a probe, a report, a bundle or a frame.
pub fn notice_is_nothing_else()
    ensures message { (n : Notice) (m : Message) (bytes : List ℕ) → SpellsNotice n bytes → Spells m bytes → ⊥ }
    ensures probe { (n : Notice) (p : Probe) (bytes : List ℕ) → SpellsNotice n bytes → SpellsProbe p bytes → ⊥ }
    ensures report { (n : Notice) (r : Report) (bytes : List ℕ) → SpellsNotice n bytes → SpellsReport r bytes → ⊥ }
    ensures bundle { (n : Notice) (ds : List (List ℕ)) (bytes : List ℕ) → SpellsNotice n bytes → Bundles ds bytes → ⊥ }
    ensures frame { (n : Notice) (key : List ℕ) (s : Scope) (d bytes : List ℕ) → SpellsNotice n bytes
        → bytes ≡ sealed key s d → ⊥ }
{}

/// A node opens the frame of a watch as it opens that of a request: with the key of the client that it names.
pub fn is_heard_as_a_request()
    ensures kind { (w : Watch) (bytes : List ℕ) → SpellsWatch w bytes → only_request bytes ≡ bytes }
    ensures client { (w : Watch) (bytes : List ℕ) → SpellsWatch w bytes → client_in bytes ≡ w.ticket.client }
{}
