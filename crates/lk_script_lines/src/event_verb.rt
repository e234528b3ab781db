// The verbs of world mode.
ghost use Rattle.std.specs.Prelude.{◌≡◌, IfSome, IsNone};
ghost use Rattle.lk_script_lines.specs.WorldLines.{word_of};
ghost use Rattle.lk_script_lines.specs.declared.event_verb.EventVerb.{EventVerb as EventVerbValue};

/// The first word of a line of world mode.
#[derive(Clone, Copy)]
pub enum EventVerb {
    Start,
    Restart,
    Tick,
    Nudge,
    Compact,
    Deliver,
    Group,
    Client,
    Inject,
    Stop,
    Fail,
    Arm,
}

// All of them.
const ALL: [EventVerb; 12] = [
    EventVerb::Start,
    EventVerb::Restart,
    EventVerb::Tick,
    EventVerb::Nudge,
    EventVerb::Compact,
    EventVerb::Deliver,
    EventVerb::Group,
    EventVerb::Client,
    EventVerb::Inject,
    EventVerb::Stop,
    EventVerb::Fail,
    EventVerb::Arm,
];

impl EventVerb {
    // Returns the word of the verb.
    fn word(self) -> &'static [u8]
        ensures { result.now ≡ word_of self }
    {
        match self {
            EventVerb::Start => b"start",
            EventVerb::Restart => b"restart",
            EventVerb::Tick => b"tick",
            EventVerb::Nudge => b"nudge",
            EventVerb::Compact => b"compact",
            EventVerb::Deliver => b"deliver",
            EventVerb::Group => b"group",
            EventVerb::Client => b"client",
            EventVerb::Inject => b"inject",
            EventVerb::Stop => b"stop",
            EventVerb::Fail => b"fail",
            EventVerb::Arm => b"arm",
        }
    }

    /// Returns the verb of this word, if it is one.
    pub fn of(word: &[u8]) -> Option<EventVerb>
        ensures some { IfSome result (λ v. word.now ≡ word_of v) }
        ensures none { IsNone result → (v : EventVerbValue) → word.now ≡ word_of v → ⊥ }
    {
        ALL.iter().find(|verb| verb.word() == word).copied()
    }
}
