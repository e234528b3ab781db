ghost use Rattle.lk_types.specs.Answers.{IsAnswer};

use crate::client::ClientNo;
use crate::fence::Fence;
use crate::last_fence::LastFence;
use crate::sharer_count::SharerCount;
use std::fmt;

/// The answer to a request that takes effect.
#[derive(Clone, Copy, Debug)]
pub enum Answer {
    /// The client now holds the name alone, at this fence.
    Granted(Fence),
    /// Refused: that client holds the name, at that fence. Of several holders it is the one with the lowest number.
    Busy(ClientNo, Fence),
    /// The client has given up the name, which is free unless others still share it.
    Released,
    /// The client does not hold the name at this fence.
    NotHeld,
    /// Nobody holds the name; this was its last fence, 0 if it was never granted.
    Free(LastFence),
    /// That client alone holds the name, at that fence.
    Held(ClientNo, Fence),
    /// Somebody holds the name at this fence.
    Valid,
    /// Nobody holds the name at this fence.
    Stale,
    /// The table has no room for another name.
    NoRoom,
    /// The bytes are not a body that this version of the table knows.
    Bad,
    /// The last fence of the name was 2^48, so the name can never be granted again.
    Spent,
    /// The client shares the name, at this fence.
    Shared(Fence),
    /// This many clients share the name, at that fence.
    HeldShared(SharerCount, Fence),
    /// The name is free again, whoever held it.
    Broken,
    /// The node becomes a member, alpha positions later.
    Joined,
    /// Not joined: the node's number is not above every number that was ever a member's.
    Used,
    /// Not joined: there are seven members already.
    Full,
    /// The node stops being a member, alpha positions later.
    Left,
    /// Not removed: the node is not a member.
    NotMember,
    /// Not removed: the node is the only member.
    Last,
    /// The machine has its second version from now on.
    Raised,
    /// The machine had its second version already.
    AlreadyRaised,
}

impl Answer {
    /// Shows the prover that each part is in its range. Does nothing at run time.
    pub fn facts(self)
        ensures { IsAnswer self }
    {}

    // The answer in words, without its numbers.
    fn word(self) -> &'static str {
        match self {
            Answer::Granted(_) => "granted",
            Answer::Busy(_, _) => "busy",
            Answer::Released => "released",
            Answer::NotHeld => "not held",
            Answer::Free(_) => "free",
            Answer::Held(_, _) => "held",
            Answer::Valid => "valid",
            Answer::Stale => "stale",
            Answer::NoRoom => "no room",
            Answer::Bad => "bad",
            Answer::Spent => "spent",
            Answer::Shared(_) => "shared",
            Answer::HeldShared(_, _) => "held shared",
            Answer::Broken => "broken",
            Answer::Joined => "joined",
            Answer::Used => "used",
            Answer::Full => "full",
            Answer::Left => "left",
            Answer::NotMember => "not a member",
            Answer::Last => "last",
            Answer::Raised => "raised",
            Answer::AlreadyRaised => "already raised",
        }
    }
}

impl fmt::Display for Answer {
    fn fmt<W: fmt::Write>(&self, f: &mut fmt::Formatter<W>) -> fmt::Result {
        let word = self.word();
        match self {
            Answer::Granted(fence) | Answer::Shared(fence) => write!(f, "{word} {}", fence.get()),
            Answer::Busy(holder, fence) | Answer::Held(holder, fence) => {
                write!(f, "{word} {} {}", holder.get(), fence.get())
            }
            Answer::Free(fence) => write!(f, "{word} {}", fence.get()),
            Answer::HeldShared(count, fence) => write!(f, "{word} {} {}", count.get(), fence.get()),
            Answer::Released
            | Answer::NotHeld
            | Answer::Valid
            | Answer::Stale
            | Answer::NoRoom
            | Answer::Bad
            | Answer::Spent
            | Answer::Broken
            | Answer::Joined
            | Answer::Used
            | Answer::Full
            | Answer::Left
            | Answer::NotMember
            | Answer::Last
            | Answer::Raised
            | Answer::AlreadyRaised => f.write_str(word),
        }
    }
}
