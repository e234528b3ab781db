//! Laws about what a rebase leaves of a node: each is the contract of a function without a body.
ghost use Rattle.lk_rebases.specs.Pasts.{FitsAfterRebase, RebaseChangesNoTick, RebaseChangesNothing};
ghost use Rattle.lk_rebases.specs.Pasts.{StaticMessageMovesNothing};

use lk_state::Machine;

/// A rebase changes nothing of what a node does with a request, a promise or an acceptance, or with a Prepare or an
/// Accept of positions that it has not executed: with the votes and commands that the rebase has replaced it sends and
/// writes the same, and is then the same but for these.
pub fn a_rebase_changes_no_reply<M: Machine>()
    ensures { RebaseChangesNothing M.meaning M.IsText }
{}

/// Nor does it change what a node without a term does at a tick.
pub fn a_rebase_changes_no_tick()
    ensures { RebaseChangesNoTick }
{}

/// A node that is rebased once more is still the same but for what the rebases have replaced.
pub fn another_rebase_fits()
    ensures { FitsAfterRebase }
{}

/// A request, a promise, a Prepare and an Accept leave what a node has executed and knows as it was.
pub fn only_decisions_move_a_node<M: Machine>()
    ensures { StaticMessageMovesNothing M.meaning M.IsText }
{}
