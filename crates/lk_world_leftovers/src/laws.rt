//! Laws about worlds in which votes of earlier ballots are left: each is the contract of a function that does nothing
//! but call the laws on which it rests.
ghost use Rattle.lk_world_leftovers.specs.Answering.{ReadyLeaderAnswers};
ghost use Rattle.lk_world_leftovers.specs.Collecting.{CandidateFillsIn};
ghost use Rattle.lk_world_leftovers.specs.Exchanging.{LeftoversAreFilled, VotersCatchUp, WorldWithLeftoversAnswers};
ghost use Rattle.lk_world_leftovers.specs.Fixed.{FixedWorldHasLeftovers, FreshRequestsAreNew, NodesKnowMembers};
ghost use Rattle.lk_world_leftovers.specs.Fixed.{VotesAreOlder};
ghost use Rattle.lk_world_leftovers.specs.Filling.{FillingLeaderOffers, PositionIsFilled};
ghost use Rattle.lk_world_leftovers.specs.Interrupted.{InterruptedWorldsContend};
ghost use Rattle.lk_world_leftovers.specs.Lagging.{LaggingCandidateIsFed, LaggingVoterIsFed, NudgedVoterLasts};
ghost use Rattle.lk_world_leftovers.specs.Leveling.{ExchangesFeedAll, LevelNodesContend, NewWorldsAreLevel};
ghost use Rattle.lk_world_leftovers.specs.Leveling.{UnlevelNodesCanBeFed};
ghost use Rattle.lk_world_leftovers.specs.Persisting.{FedCandidateContends, NewWorldsContend};
ghost use Rattle.lk_world_leftovers.specs.Persisting.{PersistingCandidateAnswers, RejectionsAreFew};
ghost use Rattle.lk_world_leftovers.specs.Restarted.{RestartedMajorityAnswers, RestartedNodesAreOpen};
ghost use Rattle.lk_world_leftovers.specs.Restarted.{RestartedNodesEnd, RestartedNodesMayContend};
ghost use Rattle.lk_world_leftovers.specs.Snapshots.{PartsAreTaken};

use lk_leftovers::laws::{
    a_filled_leader_is_ready, a_leader_accepts_its_own, a_leader_fills_on,
    a_promised_candidate_fills, a_voter_accepts_and_stays,
};
use lk_progress::laws::{
    a_due_node_asks_its_window, a_fresh_request_is_proposed, a_near_node_accepts,
    a_prepare_is_promised_or_rejected_for_a_cause, an_accepted_request_is_answered,
    new_clusters_are_quiet,
};
use lk_state::Machine;
use lk_world_feeding::laws::{
    a_node_can_be_fed, a_rejection_feeds_its_sender, an_exchange_feeds_a_node,
    an_exchange_sends_parts, sent_commands_are_executed,
};
use lk_world_progress::laws::{
    a_delivered_rejection_raises, a_rejected_candidate_has_fewer_rivals, restarts_are_fresh,
};

// ---- a majority promises

/// A due candidate that takes a tick and the promises of a majority, whatever votes of earlier ballots they report,
/// leads and fills up. It has sent each member an Accept of all that it has proposed by then.
pub fn a_candidate_fills_in_a_world<M: Machine>()
    ensures { CandidateFillsIn M.meaning M.IsText }
{
    a_due_node_asks_its_window();
    a_prepare_is_promised_or_rejected_for_a_cause::<M>();
    a_promised_candidate_fills::<M>();
}

// ---- one position after another

/// While a vote is reported at a leader's next position or above it, it has proposed a command there, and has sent each
/// member an Accept of it.
pub fn a_filling_leader_offers<M: Machine>()
    ensures { FillingLeaderOffers M.meaning M.IsText }
{
    a_leader_fills_on::<M>();
}

/// Once each node has taken that Accept, and the leader their replies, it has executed more and fills on, and they are
/// voters at its next position.
pub fn a_position_is_filled<M: Machine>()
    ensures { PositionIsFilled M.meaning M.IsText }
{
    a_leader_accepts_its_own::<M>();
    a_leader_fills_on::<M>();
    a_voter_accepts_and_stays::<M>();
}

/// So one position after another is filled, and at most as many as are left.
pub fn leftovers_are_filled<M: Machine>()
    ensures { LeftoversAreFilled M.meaning M.IsText }
{
    a_position_is_filled::<M>();
}

/// A voter whose next 2 alpha positions end where the leader has executed takes decided commands, and the leader fills
/// up as before. Each voter does so once at most.
pub fn voters_catch_up<M: Machine>()
    ensures { VotersCatchUp M.meaning M.IsText }
{
    sent_commands_are_executed::<M>();
}

// ---- an answer

/// A leader that is ready answers a fresh request within four deliveries: the request, the Accept, the Accepted and the
/// answer.
pub fn a_ready_leader_answers<M: Machine>()
    ensures { ReadyLeaderAnswers M.meaning M.IsText }
{
    a_fresh_request_is_proposed::<M>();
    a_near_node_accepts::<M>();
    an_accepted_request_is_answered::<M>();
}

/// A world in which votes of earlier ballots are left answers a fresh request after one exchange: the candidate's tick,
/// the promises of a majority, one position after another, what voters lack to take one more, and the request.
pub fn a_world_with_leftovers_answers<M: Machine>()
    ensures { WorldWithLeftoversAnswers M.meaning M.IsText }
{
    a_candidate_fills_in_a_world::<M>();
    leftovers_are_filled::<M>();
    voters_catch_up::<M>();
    a_filled_leader_is_ready();
    a_ready_leader_answers::<M>();
}

// ---- members that never changed

/// If nobody has asked to change the members, each node knows those of the genesis at each position of its window, and
/// no command that it keeps changes them.
pub fn nodes_know_their_members<M: Machine>()
    ensures { NodesKnowMembers M.meaning M.IsText }
{}

/// A request is fresh at each node if its client has asked nothing with its number or a greater one.
pub fn fresh_requests_are_new<M: Machine>()
    ensures { FreshRequestsAreNew M.meaning M.IsText }
{}

/// The votes of a node that has promised no ballot above the next one of another node are of smaller ballots than that.
pub fn votes_are_older<M: Machine>()
    ensures { VotesAreOlder M.meaning M.IsText }
{}

/// In such a world a due candidate that nobody of a majority is ahead of meets the premises of the laws above.
pub fn a_fixed_world_has_leftovers<M: Machine>()
    ensures { FixedWorldHasLeftovers M.meaning M.IsText }
{}

// ---- rejections

/// The rivals that reject a candidate, one after another, are all different, so they are at most as many as the others.
pub fn rejections_are_few<M: Machine>()
    ensures { RejectionsAreFew M.meaning M.IsText }
{
    a_due_node_asks_its_window();
    a_delivered_rejection_raises::<M>();
    a_rejected_candidate_has_fewer_rivals::<M>();
}

/// A candidate that nobody of a majority is ahead of answers a fresh request after at most as many rejections as there
/// are others, and one exchange.
pub fn a_persisting_candidate_answers<M: Machine>()
    ensures { PersistingCandidateAnswers M.meaning M.IsText }
{
    rejections_are_few::<M>();
    a_fixed_world_has_leftovers::<M>();
    fresh_requests_are_new::<M>();
    a_world_with_leftovers_answers::<M>();
}

/// A candidate that is behind, and takes decided commands, meets them still, and has executed no less.
pub fn a_fed_candidate_contends<M: Machine>()
    ensures { FedCandidateContends M.meaning M.IsText }
{}

/// The nodes of a new cluster meet them.
pub fn new_worlds_contend<M: Machine>()
    ensures { NewWorldsContend M.meaning M.IsText }
{
    new_clusters_are_quiet();
}

/// So do nodes of a new cluster whose first leader is interrupted, which keep a vote of its ballot, with another one.
pub fn interrupted_worlds_contend<M: Machine>()
    ensures { InterruptedWorldsContend M.meaning M.IsText }
{
    new_clusters_are_quiet();
    a_prepare_is_promised_or_rejected_for_a_cause::<M>();
    a_voter_accepts_and_stays::<M>();
}

// ---- nodes that lag, and restarts

/// Another node that has executed less than the candidate, and whose rejection the candidate takes, executes 16
/// commands more, or as much as the candidate, and may contend with it as before.
pub fn a_lagging_voter_is_fed<M: Machine>()
    ensures { LaggingVoterIsFed M.meaning M.IsText }
{
    a_rejection_feeds_its_sender::<M>();
}

/// So does a candidate that has executed less than another node, and takes that one's rejection: it asks, and is fed.
pub fn a_lagging_candidate_is_fed<M: Machine>()
    ensures { LaggingCandidateIsFed M.meaning M.IsText }
{
    an_exchange_feeds_a_node::<M>();
    a_fed_candidate_contends::<M>();
}

/// Where one keeps a snapshot in place of what the other lacks, that one takes parts of it instead.
pub fn parts_are_taken<M: Machine>()
    ensures { PartsAreTaken M.meaning M.IsText }
{
    an_exchange_sends_parts::<M>();
}

/// A nudge of one of the others, by which it may tell the rest what it has executed, leaves all of them as they were.
pub fn a_nudged_voter_lasts<M: Machine>()
    ensures { NudgedVoterLasts M.meaning M.IsText }
{}

/// Exchanges in which the candidate feeds others, and is fed by others, leave all of them able to contend. None is fed
/// commands more often than there are positions that it lacks, and once for each 16 commands is enough.
pub fn exchanges_feed_all<M: Machine>()
    ensures { ExchangesFeedAll M.meaning M.IsText }
{
    a_lagging_voter_is_fed::<M>();
    a_lagging_candidate_is_fed::<M>();
    parts_are_taken::<M>();
}

/// Once nobody is ahead of the candidate, and the votes are near each of the others, they meet the premises above.
pub fn level_nodes_contend<M: Machine>()
    ensures { LevelNodesContend M.meaning M.IsText }
{}

/// While they are not level, the candidate can be fed by another one, or another one by the candidate.
pub fn unlevel_nodes_can_be_fed<M: Machine>()
    ensures { UnlevelNodesCanBeFed M.meaning M.IsText }
{
    a_node_can_be_fed::<M>();
}

/// The nodes of a new cluster are level.
pub fn new_worlds_are_level<M: Machine>()
    ensures { NewWorldsAreLevel M.meaning M.IsText }
{
    new_worlds_contend::<M>();
}

/// Nodes that have restarted keep no vote, and know no decided command, more than 2 alpha above what the one that has
/// executed most has executed.
pub fn restarted_nodes_end<M: Machine>()
    ensures { RestartedNodesEnd M.meaning M.IsText }
{}

/// They have gathered nothing of a snapshot, so each can be sent the snapshot of another one.
pub fn restarted_nodes_are_open<M: Machine>()
    ensures { RestartedNodesAreOpen M.meaning M.IsText }
{}

/// Nodes that have restarted, whatever they did before, may contend.
pub fn restarted_nodes_may_contend<M: Machine>()
    ensures { RestartedNodesMayContend M.meaning M.IsText }
{}

/// A majority that restarts answers, whatever its nodes did before and have promised, once those that lag are fed.
pub fn a_restarted_majority_answers<M: Machine>()
    ensures { RestartedMajorityAnswers M.meaning M.IsText }
{
    restarts_are_fresh::<M>();
    restarted_nodes_may_contend::<M>();
    exchanges_feed_all::<M>();
    level_nodes_contend::<M>();
    a_persisting_candidate_answers::<M>();
}
