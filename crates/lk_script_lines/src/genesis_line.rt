//! Reads the line that begins world mode.
ghost use Rattle.std.specs.Prelude.{◌≡◌, ℕ, List, None, true, false, codes, IfOk, IfSome, IsNone, IsErrOf};
ghost use Rattle.lk_types.specs.declared.member.Member.{Member as MemberValue};
ghost use Rattle.lk_types.specs.Genesis.{wide_fault};
ghost use Rattle.lk_script_lines.specs.GenesisLines.{SpellsGenesis, StartsWithAlpha, IsGenesisLine};
ghost use Rattle.lk_script_lines.specs.WorldLines.{StartsWithNumber};

use crate::fault::LineFault;
use crate::world_words::first_number;
use lk_types::Genesis;
use lk_word_parsers::alpha::read_alpha;
use lk_word_parsers::member::read_members;
use lk_word_parsers::word::split_word;

// Reads the number of the cluster and its alpha, and returns them with the words of its members.
fn numbers_of(words: &[u8]) -> Option<(u64, u8, &[u8])>
    ensures some { IfSome result
        (λ p. (more : List ℕ) × StartsWithNumber 0 18446744073709551615 p.0 more words.now
        × StartsWithAlpha p.1 p.2.now more) }
    ensures none { IsNone result → (cluster alpha : ℕ) (ms : List MemberValue)
        → SpellsGenesis words.now cluster alpha ms → ⊥ }
{
    let (cluster, words) = first_number(words, 0, u64::MAX)?;
    let (word, words) = split_word(words)?;
    let alpha = read_alpha(word)?;
    Some((cluster, alpha, words))
}

// Reads `CLUSTER ALPHA NODE:PORT ..`; `None` if the words are not of this form, or the genesis is invalid.
fn genesis_of(words: &[u8]) -> Option<Genesis>
    ensures some { IfSome result
        (λ g. SpellsGenesis words.now g.cluster g.alpha g.members × (wide_fault g.alpha g.members ≡ None)) }
    ensures none { IsNone result → (cluster alpha : ℕ) (ms : List MemberValue)
        → SpellsGenesis words.now cluster alpha ms → wide_fault alpha ms ≡ None → ⊥ }
{
    let (cluster, alpha, words) = numbers_of(words)?;
    let members = read_members(words, b' ')?;
    match Genesis::wide(cluster, alpha, members.as_slice()) {
        Ok(genesis) => Some(genesis),
        Err(_) => None,
    }
}

// Whether the word is `genesis`, which begins world mode.
fn is_genesis(word: &[u8]) -> bool
    ensures is { result ≡ true → word.now ≡ codes "genesis" }
    ensures other { result ≡ false → word.now ≡ codes "genesis" → ⊥ }
{
    match word {
        b"genesis" => true,
        _ => false,
    }
}

/// Reads the line `genesis CLUSTER ALPHA NODE:PORT ..`; ALPHA ends in a `w` if the genesis is wide. Any other line, and
/// an invalid genesis, are not understood.
pub fn read_genesis(line: &[u8]) -> Result<Genesis, LineFault>
    ensures ok { IfOk result (λ g. IsGenesisLine line.now g.cluster g.alpha g.members) }
    ensures not_understood { IsErrOf result LineFault.NotUnderstood → (cluster alpha : ℕ) (ms : List MemberValue)
        → IsGenesisLine line.now cluster alpha ms → ⊥ }
{
    let Some((word, words)) = split_word(line) else {
        return Err(LineFault::NotUnderstood);
    };
    if !is_genesis(word) {
        return Err(LineFault::NotUnderstood);
    }
    match genesis_of(words) {
        Some(genesis) => Ok(genesis),
        None => Err(LineFault::NotUnderstood),
    }
}
