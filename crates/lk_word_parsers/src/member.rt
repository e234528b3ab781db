//! Reads members, `NODE:PORT`, and lists of them.

ghost use Rattle.std.specs.Prelude.{◌≡◌, ◌<◌, ◌≤◌, List, length, IfSome, IsNone};
ghost use Rattle.lk_types.specs.declared.member.Member.{Member as MemberValue};
ghost use Rattle.lk_word_parsers.specs.Geneses.{IsMemberWord, SpellsMembers};

use crate::operation::{node_of, port_of};
use crate::word::split_once;
use arrayvec::ArrayVec;
use lk_types::Member;
use lk_types::limits::MAX_MEMBERS;

/// Reads a member, `NODE:PORT`. `None` if the word spells none.
pub fn member_of(word: &[u8]) -> Option<Member>
    ensures some { IfSome result (λ m. IsMemberWord m word.now) }
    ensures none { IsNone result → (m : MemberValue) → IsMemberWord m word.now → ⊥ }
{
    let (node, port) = split_once(word, b':')?;
    let Some(node) = node_of(node) else {
        return None;
    };
    match port_of(port) {
        Some(port) => Some(Member { node, port }),
        None => None,
    }
}

/// Reads one to seven members, separated by `sign`, a byte below '0'. `None` if one is invalid, or there are more.
pub fn read_members(words: &[u8], sign: u8) -> Option<ArrayVec<Member, MAX_MEMBERS>>
    requires { sign < 48 }
    ensures some { IfSome result (λ ms. SpellsMembers sign words.now ms.items) }
    ensures none { IsNone result → (ms : List MemberValue) → SpellsMembers sign words.now ms → length ms ≤ 7 → ⊥ }
{
    let mut members = ArrayVec::new();
    let mut rest = words;
    'words: while let Some((word, behind)) = split_once(rest, sign) {
        let Some(member) = member_of(word) else {
            return None;
        };
        if members.try_push(member).is_err() {
            return None;
        }
        rest = behind;
    }
    let Some(member) = member_of(rest) else {
        return None;
    };
    if members.try_push(member).is_err() {
        return None;
    }
    Some(members)
}
