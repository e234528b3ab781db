//! Reads a genesis, `CLUSTER,ALPHA,NODE:PORT,..`. If it is wide, ALPHA ends in a `w`.

ghost use Rattle.std.specs.Prelude.{◌≡◌, ℕ, List, IfSome, IsNone};
ghost use Rattle.lk_types.specs.declared.member.Member.{Member as MemberValue};
ghost use Rattle.lk_word_parsers.specs.Geneses.{SpellsGenesis};

use crate::alpha::read_alpha;
use crate::member::read_members;
use crate::number::read_number;
use crate::word::split_once;
use lk_types::Genesis;

/// Reads a genesis, `CLUSTER,ALPHA,NODE:PORT,..`. `None` if the text spells none, or an invalid one. Allocates nothing.
pub fn read_genesis(text: &[u8]) -> Option<Genesis>
    ensures some { IfSome result (λ g. SpellsGenesis text.now g.cluster g.alpha g.members) }
    ensures none { IsNone result → (cluster alpha : ℕ) (ms : List MemberValue)
        → SpellsGenesis text.now cluster alpha ms → ⊥ }
{
    let (cluster, words) = split_once(text, b',')?;
    let (alpha, words) = split_once(words, b',')?;
    let cluster = read_number(cluster, u64::MAX)?;
    let alpha = read_alpha(alpha)?;
    let members = read_members(words, b',')?;
    match Genesis::wide(cluster, alpha, members.as_slice()) {
        Ok(genesis) => Some(genesis),
        Err(_) => None,
    }
}
