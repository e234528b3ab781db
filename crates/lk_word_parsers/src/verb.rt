// The first words of operations.
ghost use Rattle.std.specs.Prelude.{◌≡◌, IfSome, IsNone};
ghost use Rattle.lk_word_parsers.specs.Verbs.{word_of};
ghost use Rattle.lk_word_parsers.specs.declared.verb.Verb.{Verb};

/// The first word of an operation on the locks or on the members.
#[derive(Clone, Copy)]
pub enum Verb {
    Acquire,
    Release,
    Ask,
    Check,
    Share,
    Break,
    Join,
    Leave,
    Raise,
    Raw,
}

// All of them.
const ALL: [Verb; 10] = [
    Verb::Acquire,
    Verb::Release,
    Verb::Ask,
    Verb::Check,
    Verb::Share,
    Verb::Break,
    Verb::Join,
    Verb::Leave,
    Verb::Raise,
    Verb::Raw,
];

impl Verb {
    // Returns its spelling.
    fn word(self) -> &'static [u8]
        ensures { result.now ≡ word_of self }
    {
        match self {
            Verb::Acquire => b"acquire",
            Verb::Release => b"release",
            Verb::Ask => b"ask",
            Verb::Check => b"check",
            Verb::Share => b"share",
            Verb::Break => b"break",
            Verb::Join => b"join",
            Verb::Leave => b"leave",
            Verb::Raise => b"raise",
            Verb::Raw => b"raw",
        }
    }

    /// Returns the verb with that spelling, `None` if there is none.
    pub fn of(word: &[u8]) -> Option<Verb>
        ensures some { IfSome result (λ v. word.now ≡ word_of v) }
        ensures none { IsNone result → (v : Verb) → word.now ≡ word_of v → ⊥ }
    {
        ALL.iter().find(|verb| verb.word() == word).copied()
    }
}
