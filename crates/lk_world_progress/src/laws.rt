//! Laws of progress about worlds of replicas: each is the contract of a function that does nothing, except that some
//! call the law of `lk_progress` on which they rest.
ghost use Rattle.lk_world_progress.specs.Balloting.{DeliveredAcceptIsAnswered, DeliveredPrepareIsAnswered};
ghost use Rattle.lk_world_progress.specs.Balloting.{TickBeginsBallot};
ghost use Rattle.lk_world_progress.specs.Beginning.{NewWorldsAreQuiet, StartsAreNew, TicksLeaveNew};
ghost use Rattle.lk_world_progress.specs.Delivering.{DeliveriesAreTaken};
ghost use Rattle.lk_world_progress.specs.Exchanging.{QuietWorldAnswers};
ghost use Rattle.lk_world_progress.specs.Overtaking.{DeliveredNackRaises, RejectedCandidateHasFewerRivals};
ghost use Rattle.lk_world_progress.specs.Restarting.{NodeRestarts, NodesRestart};
ghost use Rattle.lk_world_progress.specs.Stepping.{EventIsStep};
ghost use Rattle.lk_world_progress.specs.Waiting.{WorldTicksBegin};

use lk_progress::laws::{
    a_due_node_asks_its_window, a_prepare_is_promised_or_rejected_for_a_cause,
    a_quiet_majority_answers, a_rejected_node_goes_above,
    an_accept_is_accepted_or_rejected_for_a_cause, new_clusters_are_quiet, ticks_begin_a_ballot,
};
use lk_state::Machine;

// ---- events

/// An event that goes well and gives a node an input is a step of that node, after a rebase if that is due: the step's
/// envelopes are the world's next datagrams, and every other node is unchanged.
pub fn an_event_is_a_step<M: Machine>()
    ensures { EventIsStep M.meaning M.IsText }
{}

/// A node takes what is delivered to it, in order, and what it sends joins the datagrams. No rebase of it is due, and
/// no part of a snapshot is delivered.
pub fn deliveries_are_taken<M: Machine>()
    ensures { DeliveriesAreTaken M.meaning M.IsText }
{}

// ---- ballots

/// A tick of a node that is due begins its next ballot, and asks each node of its window for a promise.
pub fn a_due_tick_begins_a_ballot<M: Machine>()
    ensures { TickBeginsBallot M.meaning M.IsText }
{
    a_due_node_asks_its_window();
}

/// A node to which a Prepare is delivered promises, or rejects it and tells why, as does one of steps alone: it has
/// promised a greater ballot, or has executed the position that the candidate asks from.
pub fn a_delivered_prepare_is_answered<M: Machine>()
    ensures { DeliveredPrepareIsAnswered M.meaning M.IsText }
{
    a_prepare_is_promised_or_rejected_for_a_cause::<M>();
}

/// A node to which an Accept is delivered accepts, or rejects it and tells why: it has promised a greater ballot, has
/// executed the position, or has executed so little that the position is more than twice alpha ahead.
pub fn a_delivered_accept_is_answered<M: Machine>()
    ensures { DeliveredAcceptIsAnswered M.meaning M.IsText }
{
    an_accept_is_accepted_or_rejected_for_a_cause::<M>();
}

/// A node to which a rejection is delivered goes above it: its next ballot is above the promised one that it hears of,
/// and not below what it was. A term of a smaller ballot has ended.
pub fn a_delivered_rejection_raises<M: Machine>()
    ensures { DeliveredNackRaises M.meaning M.IsText }
{
    a_rejected_node_goes_above::<M>();
}

/// A rejected candidate has a rival less. A rival has promised a ballot above the candidate's next one. If the
/// candidate is due and takes a tick, others take its Prepare, it takes the rejection of a rival among them, and
/// nothing else happens meanwhile, then that node is a rival no longer, and none of the others has become one.
pub fn a_rejected_candidate_has_fewer_rivals<M: Machine>()
    ensures { RejectedCandidateHasFewerRivals M.meaning M.IsText }
{
    a_rejected_node_goes_above::<M>();
    a_due_node_asks_its_window();
}

// ---- an exchange

/// A world with a quiet majority answers a fresh request after one exchange. Quiet: a candidate is due, and nobody of a
/// majority with it has promised a greater ballot, has executed more or far less, or keeps a vote above that. The
/// candidate takes a tick; then each takes the Prepare, the candidate the promises and the request, each the Accept,
/// and the candidate the replies. Nothing else happens meanwhile. Rebases may be due.
pub fn a_quiet_world_answers<M: Machine>()
    ensures { QuietWorldAnswers M.meaning M.IsText }
{
    a_quiet_majority_answers::<M>();
}

/// The world of a new cluster is quiet once one of its nodes is due, so the premises of the law above can be met.
pub fn new_worlds_are_quiet<M: Machine>()
    ensures { NewWorldsAreQuiet M.meaning M.IsText }
{
    new_clusters_are_quiet();
}

/// A node that starts with empty disks is a node of a new cluster, and a tick at which it is not due changes nothing of
/// it but its count.
pub fn started_nodes_are_new<M: Machine>()
    ensures starts { StartsAreNew M.meaning M.IsText }
    ensures ticks { TicksLeaveNew M.meaning M.IsText }
{}

// ---- restarts

/// A node that restarts is as its disks tell: it has no term, nothing waits, no tick has passed, and it gathers no
/// snapshot. Its acceptor and its learner are near. Nothing is sent, and every other node is unchanged.
pub fn a_restart_is_fresh<M: Machine>()
    ensures { NodeRestarts M.meaning M.IsText }
{}

/// Several nodes that restart one after another, as a majority may, each stopped before that if it was up, all come up
/// with no term, nothing that waits, no tick passed and no snapshot gathered, and are near.
pub fn restarts_are_fresh<M: Machine>()
    ensures { NodesRestart M.meaning M.IsText }
{}

/// A member of its next position that takes ticks, and nothing else, has a term after four of them, and four more for
/// each member before it, if a round is left. Its acceptor and its learner are near, as after a restart.
pub fn ticks_begin_a_ballot_in_a_world<M: Machine>()
    ensures { WorldTicksBegin M.meaning M.IsText }
{
    ticks_begin_a_ballot();
}
