// Reads watches and notices. Each `read_..` returns a part and the bytes after it, or `None` if the bytes do not begin
// with one.
ghost use Rattle.std.specs.Prelude.{◌≡◌, IfSome, IsSomeAnd};
ghost use Rattle.lk_codec.specs.Parser.{Finds};
ghost use Rattle.lk_locks.specs.Bodies.{read_name};
ghost use Rattle.lk_watch.specs.Grammar.{SpellsWatch, SpellsNotice};
ghost use Rattle.lk_watch.specs.Reading.{are_zeros, read_mode, read_news, read_name_field, read_ticket};
ghost use Rattle.lk_watch.specs.Reading.{read_watch_fields, read_notice_fields, watch_of, notice_of};
ghost use Rattle.lk_watch.specs.declared.watch.Watch.{Watch as WatchValue};
ghost use Rattle.lk_watch.specs.declared.notice.Notice.{Notice as NoticeValue};

use crate::notice::{News, Notice};
use crate::ticket::{Mode, Ticket};
use crate::watch::Watch;
use crate::writing::NAME_FIELD;
use lk_codec::{read_client, read_fence, read_node, read_u8, read_u16, read_u32, read_u64};
use lk_locks::Name;

// Reads the number of a mode: 1 for exclusive, 2 for share.
#[tactic(auto, unfolding(crate::specs::Reading::read_mode))]
fn read_mode(bytes: &[u8]) -> Option<(Mode, &[u8])>
    ensures { Finds (λ x. (x.0, x.1.now)) result (read_mode bytes.now) }
{
    let (number, rest) = read_u8(bytes)?;
    match number {
        1 => Some((Mode::Exclusive, rest)),
        2 => Some((Mode::Share, rest)),
        _ => None,
    }
}

// Reads the number of what a node says: 1 for free, 2 for held, 3 for nothing.
#[tactic(auto, unfolding(crate::specs::Reading::read_news))]
fn read_news(bytes: &[u8]) -> Option<(News, &[u8])>
    ensures { Finds (λ x. (x.0, x.1.now)) result (read_news bytes.now) }
{
    let (number, rest) = read_u8(bytes)?;
    match number {
        1 => Some((News::Free, rest)),
        2 => Some((News::Held, rest)),
        3 => Some((News::NotHere, rest)),
        _ => None,
    }
}

// Whether each of these bytes is zero.
fn are_zeros(bytes: &[u8]) -> bool
    ensures { result ≡ are_zeros bytes.now }
{
    for byte in bytes {
        if *byte != 0 {
            return false;
        }
    }
    true
}

// Reads the length of a name in a byte, and then the name.
#[tactic(auto, unfolding(lk_locks::specs::Bodies::read_name))]
fn read_name(bytes: &[u8]) -> Option<(Name, &[u8])>
    ensures { Finds (λ x. (x.0, x.1.now)) result (read_name bytes.now) }
{
    let (length, rest) = read_u8(bytes)?;
    let length = length as usize;
    if rest.len() < length {
        return None;
    }
    let (name, rest) = rest.split_at(length);
    Some((Name::of(name)?, rest))
}

// Reads a name in 33 bytes: its length, its bytes and zeros.
#[tactic(auto, unfolding(crate::specs::Reading::read_name_field))]
fn read_name_field(bytes: &[u8]) -> Option<(Name, &[u8])>
    ensures { Finds (λ x. (x.0, x.1.now)) result (read_name_field bytes.now) }
{
    let (field, rest) = bytes.split_first_chunk::<NAME_FIELD>()?;
    let Some((name, zeros)) = read_name(field) else {
        return None;
    };
    if !are_zeros(zeros) {
        return None;
    }
    Some((name, rest))
}

#[tactic(auto, unfolding(crate::specs::Reading::read_ticket))]
fn read_ticket(bytes: &[u8]) -> Option<(Ticket, &[u8])>
    ensures { Finds (λ x. (x.0, x.1.now)) result (read_ticket bytes.now) }
{
    if let Some((client, rest)) = read_client(bytes)
        && let Some((number, rest)) = read_u64(rest)
        && let Some((fence, rest)) = read_fence(rest)
        && let Some((mode, rest)) = read_mode(rest)
        && let Some((name, rest)) = read_name_field(rest)
    {
        let ticket = Ticket {
            client,
            number,
            fence,
            mode,
            name,
        };
        return Some((ticket, rest));
    }
    None
}

#[tactic(auto, unfolding(crate::specs::Reading::read_watch_fields))]
fn read_watch_fields(bytes: &[u8]) -> Option<(Watch, &[u8])>
    ensures { Finds (λ x. (x.0, x.1.now)) result (read_watch_fields bytes.now) }
{
    if let Some((cluster, rest)) = read_u64(bytes)
        && let Some((0, rest)) = read_u32(rest)
        && let Some((ticket, rest)) = read_ticket(rest)
        && let Some((periods, rest)) = read_u8(rest)
        && let Some((0, rest)) = read_u16(rest)
    {
        let watch = Watch {
            cluster,
            ticket,
            periods,
        };
        return Some((watch, rest));
    }
    None
}

#[tactic(auto, unfolding(crate::specs::Reading::read_notice_fields))]
fn read_notice_fields(bytes: &[u8]) -> Option<(Notice, &[u8])>
    ensures { Finds (λ x. (x.0, x.1.now)) result (read_notice_fields bytes.now) }
{
    if let Some((cluster, rest)) = read_u64(bytes)
        && let Some((node, rest)) = read_node(rest)
        && let Some((ticket, rest)) = read_ticket(rest)
        && let Some((news, rest)) = read_news(rest)
        && let Some((place, rest)) = read_u16(rest)
    {
        let notice = Notice {
            cluster,
            node,
            ticket,
            news,
            place,
        };
        return Some((notice, rest));
    }
    None
}

// Reads a whole datagram as a watch, `None` if it is none.
#[tactic(auto, unfolding(crate::specs::Reading::watch_of))]
fn watch_of(bytes: &[u8]) -> Option<Watch>
    ensures { Finds (λ x. x) result (watch_of bytes.now) }
{
    match bytes {
        [b'L', b'W', 1, 9, fields @ ..] => {
            let Some((watch, rest)) = read_watch_fields(fields) else {
                return None;
            };
            if rest.len() > 0 {
                return None;
            }
            Some(watch)
        }
        _ => None,
    }
}

// Reads a whole datagram as a notice, `None` if it is none.
#[tactic(auto, unfolding(crate::specs::Reading::notice_of))]
fn notice_of(bytes: &[u8]) -> Option<Notice>
    ensures { Finds (λ x. x) result (notice_of bytes.now) }
{
    match bytes {
        [b'L', b'W', 1, 10, fields @ ..] => {
            let Some((notice, rest)) = read_notice_fields(fields) else {
                return None;
            };
            if rest.len() > 0 {
                return None;
            }
            Some(notice)
        }
        _ => None,
    }
}

impl Watch {
    /// Reads a whole datagram as a watch, `None` if it is none. Allocates nothing.
    pub fn read(bytes: &[u8]) -> Option<Watch>
        // A value that is returned is spelled by the bytes.
        ensures found { IfSome result (λ w. SpellsWatch w bytes.now) }
        // Bytes that spell a value are read as that value.
        ensures only { (w : WatchValue) → SpellsWatch w bytes.now → IsSomeAnd result (λ r. r ≡ w) }
    {
        watch_of(bytes)
    }
}

impl Notice {
    /// Reads a whole datagram as a notice, `None` if it is none. Allocates nothing.
    pub fn read(bytes: &[u8]) -> Option<Notice>
        // A value that is returned is spelled by the bytes.
        ensures found { IfSome result (λ n. SpellsNotice n bytes.now) }
        // Bytes that spell a value are read as that value.
        ensures only { (n : NoticeValue) → SpellsNotice n bytes.now → IsSomeAnd result (λ r. r ≡ n) }
    {
        notice_of(bytes)
    }
}
