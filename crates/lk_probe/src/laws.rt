//! Laws of the datagrams of probes and reports. Each is stated as a function without a body.

ghost use Rattle.std.specs.Prelude.{◌≡◌, List, ℕ, length, false, true, is_some};
ghost use Rattle.lk_messages.specs.declared.message.Message.{Message};
ghost use Rattle.lk_messages.specs.Grammar.{Spells};
ghost use Rattle.lk_auth.specs.Clients.{client_in};
ghost use Rattle.lk_auth.specs.Seals.{only_request};
ghost use Rattle.lk_probe.specs.declared.probe.Probe.{Probe};
ghost use Rattle.lk_probe.specs.declared.probe.Report.{Report};
ghost use Rattle.lk_probe.specs.Grammar.{SpellsProbe, SpellsReport, or_zero};

/// Bytes spell one probe at most, and one report at most.
pub fn one_meaning()
    ensures probe { (p q : Probe) (bytes : List ℕ) → SpellsProbe p bytes → SpellsProbe q bytes → p ≡ q }
    ensures report { (r s : Report) (bytes : List ℕ) → SpellsReport r bytes → SpellsReport s bytes → r ≡ s }
{}

/// In form 1 each probe and each report has 174 bytes, and in form 2 thirty-two more.
pub fn lengths()
    ensures probe { (p : Probe) (bytes : List ℕ) → SpellsProbe p bytes → p.asks_reach ≡ false → length bytes ≡ 174 }
    ensures report { (r : Report) (bytes : List ℕ) → SpellsReport r bytes → is_some r.reach ≡ false
        → length bytes ≡ 174 }
    ensures long_probe { (p : Probe) (bytes : List ℕ) → SpellsProbe p bytes → p.asks_reach ≡ true
        → length bytes ≡ 206 }
    ensures long_report { (r : Report) (bytes : List ℕ) → SpellsReport r bytes → is_some r.reach ≡ true
        → length bytes ≡ 206 }
{}

/// No datagram of the protocol is a probe or a report, and no probe is a report.
pub fn kinds_are_disjoint()
    ensures probe { (m : Message) (p : Probe) (bytes : List ℕ) → Spells m bytes → SpellsProbe p bytes → ⊥ }
    ensures report { (m : Message) (r : Report) (bytes : List ℕ) → Spells m bytes → SpellsReport r bytes → ⊥ }
    ensures both { (p : Probe) (r : Report) (bytes : List ℕ) → SpellsProbe p bytes → SpellsReport r bytes → ⊥ }
{}

/// A node opens the frame of a client's probe as it opens that of a request: with the key of the client that it names.
pub fn is_heard_as_a_request()
    ensures kind { (p : Probe) (bytes : List ℕ) → SpellsProbe p bytes → only_request bytes ≡ bytes }
    ensures client { (p : Probe) (bytes : List ℕ) → SpellsProbe p bytes → client_in bytes ≡ or_zero p.client }
{}
