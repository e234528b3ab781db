//! Laws about nodes of a world of replicas that are behind: each is the contract of a function that does nothing,
//! except that it calls the laws on which it rests.
ghost use Rattle.lk_world_feeding.specs.Asking.{AskedNodesSend, AskersKeepGathered, NodesThatAreBehindAsk};
ghost use Rattle.lk_world_feeding.specs.Asking.{RejectedNodesSend, SentCommandsAreExecuted};
ghost use Rattle.lk_world_feeding.specs.Feeding.{ExchangesCatchUp, ExchangesFeed, RejectionsFeed};
ghost use Rattle.lk_world_feeding.specs.Gathering.{AllCanBeFed, NewerPartsBeginAnew, PartsAreWhole};
ghost use Rattle.lk_world_feeding.specs.Gathering.{PartsFeed};
ghost use Rattle.lk_world_feeding.specs.Nudging.{NudgesThrowAway, SilentNodesTell};

use lk_progress::laws::{
    a_node_that_is_ahead_sends, a_node_that_is_behind_asks, decided_commands_are_executed,
    heard_parts_are_installed,
};
use lk_state::Machine;
use lk_state::laws::states_fit;
use lk_world_progress::laws::{an_event_is_a_step, deliveries_are_taken};

// ---- single events

/// A node that hears, by a rejection or a leader's notice, of one that has executed more, asks that one for the rest. A
/// node without a term that is nudged because it was fed asks the leader that it knows. A node with a term asks each
/// other node of its window at any other nudge.
pub fn a_node_that_is_behind_asks_in_a_world<M: Machine>()
    ensures asks { NodesThatAreBehindAsk M.meaning M.IsText }
    ensures keeps { AskersKeepGathered M.meaning M.IsText }
{
    an_event_is_a_step::<M>();
    a_node_that_is_behind_asks::<M>();
}

/// A node that is asked for a position, or rejected by a node that has executed less, sends the commands from there on,
/// up to 16, if no snapshot has replaced them and no rebase is due.
pub fn a_node_that_is_ahead_sends_commands<M: Machine>()
    ensures asked { AskedNodesSend M.meaning M.IsText }
    ensures rejected { RejectedNodesSend M.meaning M.IsText }
{
    deliveries_are_taken::<M>();
    a_node_that_is_ahead_sends::<M>();
}

/// A node that takes commands, the first for its next position or an earlier one, has executed all of them.
pub fn sent_commands_are_executed<M: Machine>()
    ensures { SentCommandsAreExecuted M.meaning M.IsText }
{
    an_event_is_a_step::<M>();
    decided_commands_are_executed::<M>();
}

// ---- nudges

/// A nudge, unless it comes because the node was fed, makes a node that has no term, and has heard of no leader for
/// long, tell each other node of its window how many positions it has executed: who has executed fewer asks for the
/// rest, and who has executed more sends it.
pub fn a_nudge_makes_a_silent_node_tell<M: Machine>()
    ensures { SilentNodesTell M.meaning M.IsText }
{
    an_event_is_a_step::<M>();
}

/// Two nudges, with nothing between them, throw away what a node has gathered of a snapshot, so that it can gather
/// another one, unless one of them comes because it was fed.
pub fn two_nudges_throw_away_what_is_gathered<M: Machine>()
    ensures { NudgesThrowAway M.meaning M.IsText }
{
    an_event_is_a_step::<M>();
}

// ---- exchanges

/// A node that asks one that has executed more, and keeps what it lacks, has executed up to 16 commands more after one
/// exchange, and at least one.
pub fn an_exchange_feeds_a_node<M: Machine>()
    ensures { ExchangesFeed M.meaning M.IsText }
{
    an_event_is_a_step::<M>();
    a_node_that_is_behind_asks_in_a_world::<M>();
    a_node_that_is_ahead_sends_commands::<M>();
    sent_commands_are_executed::<M>();
}

/// After one exchange for each 16 commands that it lacks, a node has executed as much as the other one.
pub fn exchanges_catch_up<M: Machine>()
    ensures { ExchangesCatchUp M.meaning M.IsText }
{
    an_event_is_a_step::<M>();
    a_node_that_is_behind_asks_in_a_world::<M>();
    a_node_that_is_ahead_sends_commands::<M>();
    sent_commands_are_executed::<M>();
}

/// A node that rejects a message of one that has executed more gains the same way, without asking.
pub fn a_rejection_feeds_its_sender<M: Machine>()
    ensures { RejectionsFeed M.meaning M.IsText }
{
    a_node_that_is_ahead_sends_commands::<M>();
    sent_commands_are_executed::<M>();
}

/// A node that asks one whose snapshot is above what it has executed gathers more of that snapshot by one exchange, or
/// installs it.
pub fn an_exchange_sends_parts<M: Machine>()
    ensures { PartsFeed M.meaning M.IsText }
{
    an_event_is_a_step::<M>();
    deliveries_are_taken::<M>();
    a_node_that_is_behind_asks_in_a_world::<M>();
    a_node_that_is_ahead_sends::<M>();
    heard_parts_are_installed::<M>();
    states_fit::<M>();
}

/// After as many exchanges as a snapshot needs, the node has installed it, and has executed as much.
pub fn exchanges_send_a_snapshot<M: Machine>()
    ensures { PartsAreWhole M.meaning M.IsText }
{
    an_event_is_a_step::<M>();
    deliveries_are_taken::<M>();
    a_node_that_is_behind_asks_in_a_world::<M>();
    a_node_that_is_ahead_sends::<M>();
    heard_parts_are_installed::<M>();
    states_fit::<M>();
}

/// A node that has gathered part of an older snapshot throws it away once it takes a later part of a newer one.
pub fn a_newer_snapshot_begins_anew<M: Machine>()
    ensures { NewerPartsBeginAnew M.meaning M.IsText }
{
    an_event_is_a_step::<M>();
}

/// A node that has gathered nothing, or a part of another one's snapshot, can be fed by that one: by commands or by
/// that snapshot.
pub fn a_node_can_be_fed<M: Machine>()
    ensures { AllCanBeFed M.meaning M.IsText }
{}
