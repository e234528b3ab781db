//! Laws of a node's steps, about the definitions alone: each is the contract of a function without a body.
ghost use Rattle.std.specs.Prelude.{◌≡◌, ℕ, ◌≤◌, false, List, take};
ghost use Rattle.lk_types.specs.declared.entry.Entry.{Entry};
ghost use Rattle.lk_store_format.specs.Standings.{with_all};
ghost use Rattle.lk_store_format.specs.Values.{StandingValue};
ghost use Rattle.lk_learner.specs.Learners.{alpha};
ghost use Rattle.lk_node_interface.specs.Outboxes.{OutboxValue};
ghost use Rattle.lk_node_interface.specs.declared.input.Input.{Input};
ghost use Rattle.lk_node.specs.NodeValue.{NodeValue};
ghost use Rattle.lk_node.specs.NewBases.{standing_of, with_snapshot};
ghost use Rattle.lk_node.specs.Reaching.{AllLieNear, EntriesLieNear, HoldsNear, RestoresNode, StillRestoresNode};
ghost use Rattle.lk_node.specs.Steps.{Steps};

use lk_state::Machine;

/// A restart never executes less than its node had: if that holds of the store and the node before a step that does
/// not rebase, it holds of the store with the step's entries and the node after. No entry is of a position more than 2
/// alpha above what a restart from the entries before it executes.
pub fn a_step_tells_of_its_node<M: Machine>()
    ensures { (old new : NodeValue) (i : Input) (out : OutboxValue) → Steps M.meaning M.IsText old i new out
        → out.rebase ≡ false → StillRestoresNode old new out.entries }
{}

/// A restart from the Base that a node writes executes at least as much as the node, and nothing in the Base is of a
/// position more than 2 alpha above what that restart executes.
pub fn a_base_tells_of_its_node()
    ensures near { (node : NodeValue) → HoldsNear node → AllLieNear (alpha node.learner) (standing_of node) }
    ensures tells { (node : NodeValue) → HoldsNear node → 1 ≤ alpha node.learner
        → RestoresNode (alpha node.learner) (standing_of node) (with_snapshot node) }
{}

/// A stop leaves a prefix of the entries. In none of them is a vote or a pair too far above what a restart executes, so
/// no restart fails for that.
pub fn what_a_stop_leaves_lies_near()
    ensures { (ahead : ℕ) (s : StandingValue) (es : List Entry) (k : ℕ) → AllLieNear ahead s
        → EntriesLieNear ahead s es → AllLieNear ahead (with_all (take k es) s) }
{}
