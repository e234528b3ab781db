//! A law of hearing.

ghost use Rattle.std.specs.Prelude.{◌≡◌, ℕ, true};
ghost use Rattle.lk_hearing.specs.Histories.{History, IsHeardIn, remembered};
ghost use Rattle.lk_hearing.specs.Probes.{hears};

/// A node that has noted the probes that it sent and the reports that came, in order, hears another one exactly if one
/// of its last 112 probes went to that node, and the first report that has replied to it came in this period or in one
/// of the seven before it. By their clauses `note_sent` and `note_reply` add to what is `remembered`.
pub fn hears_by_what_happened()
    ensures to { (node now : ℕ) (h : History) → hears node now (remembered h) ≡ true → IsHeardIn node now h }
    ensures from { (node now : ℕ) (h : History) → IsHeardIn node now h → hears node now (remembered h) ≡ true }
{}
