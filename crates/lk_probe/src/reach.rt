// What a report of form 2 has beside the status.
ghost use Rattle.std.specs.Prelude.{IfSome};
ghost use Rattle.lk_probe.specs.Grammar.{IsReach};

use crate::state_digest::StateDigest;

/// What a report of form 2 has beside the status: whom its node hears, what its socket does with bundles, how many
/// watches and names it keeps, and a digest of its state.
#[derive(Clone, Copy)]
pub struct Reach {
    /// How many of the members of the next position it hears, itself included. `None` if it does not find that out.
    pub heard: Option<u8>,
    /// Whether it reads the bundles that come.
    pub reads_bundles: bool,
    /// Whether it sends bundles.
    pub sends_bundles: bool,
    /// How many watches it keeps, 65535 if there are more.
    pub watches: u16,
    /// How many names its lock table has, 65535 if there are more.
    pub names: u16,
    /// The digest that it took last of its state.
    pub state: StateDigest,
}

impl Reach {
    /// Shows the prover that each part is in its range. Does nothing at run time.
    pub fn facts(&self)
        ensures { IsReach self.now }
    {
        if let Some(heard) = self.heard {
            let _heard = heard;
        }
        let _watches = self.watches;
        let _names = self.names;
        self.state.facts();
    }
}

// Shows the prover that a reach, if there is one, is in its range. Does nothing at run time.
pub fn reach_facts(reach: &Option<Reach>)
    ensures { IfSome reach.now IsReach }
{
    if let Some(reach) = reach {
        reach.facts();
    }
}
