ghost use Rattle.std.specs.Prelude.{◌≡◌, ◌≤◌, ◌<◌, ◌↔◌, ℕ, IsTrue, IfOk, MatchResult, Some, None};
ghost use Rattle.lk_types.specs.Limits.{max_alpha, max_wide_alpha};
ghost use Rattle.lk_types.specs.Genesis.{fault_up_to, genesis_fault, wide_fault, fault_number};

use crate::limits::{MAX_ALPHA, MAX_MEMBERS, MAX_WIDE_ALPHA};
use crate::member::{Member, Members};
use thiserror::Error;

/// Why a genesis is invalid. If several reasons apply, it is the first in this order.
#[derive(Clone, Copy, Debug, Error)]
pub enum GenesisFault {
    #[error("no members")]
    NoMembers = 1,
    #[error("more than seven members")]
    TooMany = 2,
    #[error("the members do not rise by node")]
    NotRising = 3,
    #[error("alpha is not 1 to 16, or of a wide genesis 1 to 64")]
    BadAlpha = 4,
}

impl GenesisFault {
    /// Returns the number of this fault, 1 to 4.
    pub fn number(self) -> u8
        ensures { result ≡ fault_number self }
    {
        self as u8
    }
}

/// How a cluster begins: its number, how many positions ahead its members are known, and its first members. A wide
/// genesis may know more positions ahead.
#[derive(Drop)]
pub struct Genesis {
    pub cluster: u64,
    pub alpha: u8,
    pub members: Members,
    pub ghost in_range: { (1 ≤ alpha) × (alpha ≤ max_wide_alpha) },
}

impl Genesis {
    ghost use Rattle.lk_types.specs.Geneses.{IsGenesis};

    // Returns the genesis of these parts, or the first fault that applies; alpha may be up to `most`.
    fn up_to(most: u8, cluster: u64, alpha: u8, members: &[Member]) -> Result<Genesis, GenesisFault>
        requires { most ≤ max_wide_alpha }
        ensures ok { IfOk result (λ g. (g.cluster ≡ cluster) × (g.alpha ≡ alpha) × (g.members ≡ members.now)) }
        ensures fault { MatchResult result (λ _. fault_up_to most alpha members.now ≡ None)
            (λ e. fault_up_to most alpha members.now ≡ Some e) }
    {
        if members.is_empty() {
            return Err(GenesisFault::NoMembers);
        }
        if members.len() > MAX_MEMBERS {
            return Err(GenesisFault::TooMany);
        }
        let Some(members) = Members::of(members) else {
            return Err(GenesisFault::NotRising);
        };
        if alpha < 1 || alpha > most {
            return Err(GenesisFault::BadAlpha);
        }
        Ok(Genesis {
            cluster,
            alpha,
            members,
        })
    }

    /// Returns the genesis of these parts, which is not wide, or the first fault that applies.
    pub fn of(cluster: u64, alpha: u8, members: &[Member]) -> Result<Genesis, GenesisFault>
        ensures ok { IfOk result (λ g. (g.cluster ≡ cluster) × (g.alpha ≡ alpha) × (g.members ≡ members.now)) }
        ensures fault { MatchResult result (λ _. genesis_fault alpha members.now ≡ None)
            (λ e. genesis_fault alpha members.now ≡ Some e) }
    {
        Genesis::up_to(MAX_ALPHA, cluster, alpha, members)
    }

    /// Returns the wide genesis of these parts, whose alpha may be up to 64, or the first fault that applies.
    pub fn wide(cluster: u64, alpha: u8, members: &[Member]) -> Result<Genesis, GenesisFault>
        ensures ok { IfOk result (λ g. (g.cluster ≡ cluster) × (g.alpha ≡ alpha) × (g.members ≡ members.now)) }
        ensures fault { MatchResult result (λ _. wide_fault alpha members.now ≡ None)
            (λ e. wide_fault alpha members.now ≡ Some e) }
    {
        Genesis::up_to(MAX_WIDE_ALPHA, cluster, alpha, members)
    }

    /// Whether only a wide genesis has such an alpha.
    pub fn is_wide(&self) -> bool
        ensures { IsTrue result ↔ (max_alpha < self.now.alpha) }
    {
        self.alpha > MAX_ALPHA
    }

    /// The same genesis. Takes no memory.
    pub fn copy(&self) -> Genesis
        ensures cluster { result.cluster ≡ self.now.cluster }
        ensures alpha { result.alpha ≡ self.now.alpha }
        ensures members { result.members ≡ self.now.members }
    {
        Genesis {
            cluster: self.cluster,
            alpha: self.alpha,
            members: self.members.copy(),
        }
    }

    /// Shows the prover that each part is in its range, and the members rise by node. Does nothing at run time.
    pub fn facts(&self)
        ensures { IsGenesis self.now }
    {
        let _cluster = self.cluster;
        self.members.facts();
    }
}
