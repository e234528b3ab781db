//! Draws the tokens of probes, which nobody can guess who does not read them.

ghost use Rattle.std.specs.Prelude.{◌≡◌};
ghost use Rattle.lk_hearing.specs.Tokens.{fresh, mixed, next_state, token};

use sha2::{Digest, Sha256};
use std::marker::Model;

// An odd number by which the readings so far are multiplied before the next is added.
const STEP: u128 = 0x2360_ed05_1fc6_5da4_4385_df64_9fcc_f645;

/// Draws numbers of 64 bits from a state of 256 bits, into which readings of a clock are mixed.
#[derive(Drop)]
pub struct TokenSource {
    state: [u8; 32],
    // all readings so far, mixed
    readings: u128,
}

impl Model for TokenSource {
    ghost use Rattle.lk_hearing.specs.Tokens.{SourceValue};

    ghost Value = { SourceValue };

    ghost view = { λ s. record { state = s.state; readings = s.readings } };
}

// Returns the first eight bytes as a number.
fn number_of(state: &[u8; 32]) -> u64
    ensures { result ≡ token state.now }
{
    match state.first_chunk::<8>() {
        Some(bytes) => u64::from_be_bytes(*bytes),
        None => 0,
    }
}

impl TokenSource {
    /// A source into which nothing was mixed.
    pub fn new() -> TokenSource
        ensures { result ≡ fresh }
    {
        TokenSource {
            state: [0; 32],
            readings: 0,
        }
    }

    /// Mixes in a reading of a clock, in nanoseconds.
    pub fn stir(&mut self, reading: u128)
        ensures { self.new ≡ record self.old { readings = mixed self.old.readings reading } }
    {
        self.readings = self.readings.wrapping_mul(STEP).wrapping_add(reading);
    }

    /// Draws the next token: the first eight bytes of the next state, which is the SHA-256 digest of the state and of
    /// all readings so far.
    #[tactic(auto, unfolding(crate::specs::Tokens::next_state))]
    pub fn draw(&mut self) -> u64
        ensures next { self.new ≡ record self.old { state = next_state self.old } }
        ensures token { result ≡ token self.new.state }
    {
        let mut hasher = Sha256::new();
        hasher.update(self.state);
        hasher.update(self.readings.to_be_bytes());
        self.state = hasher.finalize();
        number_of(&self.state)
    }
}
