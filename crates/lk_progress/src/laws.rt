//! Laws of progress, about the definitions of a node's steps alone: each is the contract of a function without a body.
ghost use Rattle.lk_progress.specs.Answering.{ExecutedRequestIsAnswered};
ghost use Rattle.lk_progress.specs.Beginnings.{NewClustersAreQuiet};
ghost use Rattle.lk_progress.specs.Candidates.{CandidateLeadsOrHearsWhyNot, OwnPrepareKeepsTerm};
ghost use Rattle.lk_progress.specs.Deciding.{AcceptedCommandIsExecuted, AcceptedRequestIsAnswered};
ghost use Rattle.lk_progress.specs.Deciding.{FreshRequestIsProposed, NearNodeAccepts};
ghost use Rattle.lk_progress.specs.Electing.{DueNodeAsks, PromisedNodeLeads, RejectedNodeGoesAbove};
ghost use Rattle.lk_progress.specs.Exchanges.{QuietMajorityAnswers};
ghost use Rattle.lk_progress.specs.Feeding.{DecidedIsExecuted, FollowerAsks, LaggingNodeAsks, LaggingNodeIsFed};
ghost use Rattle.lk_progress.specs.Feeding.{WantIsAnswered};
ghost use Rattle.lk_progress.specs.Gathering.{PartsAreInstalled};
ghost use Rattle.lk_progress.specs.GettingOn.{LaggingNodeGetsOn};
ghost use Rattle.lk_progress.specs.Leading.{LeaderHasProposed};
ghost use Rattle.lk_progress.specs.LeadingOn.{LeaderLeadsOn};
ghost use Rattle.lk_progress.specs.Rejecting.{AcceptIsAcceptedOrRejected, PrepareIsPromisedOrRejected};
ghost use Rattle.lk_progress.specs.Ticking.{OutsidersAreSilent, TicksBeginABallot};

use lk_state::Machine;

// ---- ballots

/// Ticks begin a ballot: a member of the next position to which nothing arrives has a term after four ticks, and four
/// more for each member before it, if a round is left.
pub fn ticks_begin_a_ballot()
    ensures { TicksBeginABallot }
{}

/// A node that has no term, and is no member of the next position as far as it knows, sends nothing at any tick. If all
/// nodes are such, ticks alone bring nothing on.
pub fn an_outsider_is_silent_at_ticks()
    ensures { OutsidersAreSilent }
{}

/// A node promises a ballot, or rejects it and tells why: it has promised a greater one, or has executed the position
/// that the candidate asks from.
pub fn a_prepare_is_promised_or_rejected_for_a_cause<M: Machine>()
    ensures { PrepareIsPromisedOrRejected M.meaning M.IsText }
{}

/// A node accepts a command, or rejects it and tells why: it has promised a greater ballot, has executed the position,
/// or has executed so little that the position is more than twice alpha ahead.
pub fn an_accept_is_accepted_or_rejected_for_a_cause<M: Machine>()
    ensures { AcceptIsAcceptedOrRejected M.meaning M.IsText }
{}

/// A node that is due to begin a ballot does, and asks each node of its window for a promise, from its next position
/// on.
pub fn a_due_node_asks_its_window()
    ensures { DueNodeAsks }
{}

/// A node with a term leads once it has heard a majority of the next position's members promise, in any order.
pub fn a_promised_node_leads<M: Machine>()
    ensures { PromisedNodeLeads M.meaning M.IsText }
{}

/// A node that hears of a promised ballot by a rejection ends a term of a smaller one, and its next ballot is above it.
pub fn a_rejected_node_goes_above<M: Machine>()
    ensures { RejectedNodeGoesAbove M.meaning M.IsText }
{}

/// If a majority of near nodes takes the Prepare of a due candidate, all promise and make it the leader, or one
/// rejects: then the candidate's next ballot is above the greater one that this node has promised, or the candidate
/// asks this node, which has executed more.
pub fn a_candidate_leads_or_hears_why_not<M: Machine>()
    ensures { CandidateLeadsOrHearsWhyNot M.meaning M.IsText }
{}

/// A candidate that takes its own Prepare keeps its term and its learner, so it counts in its own majority.
pub fn an_own_prepare_keeps_the_term<M: Machine>()
    ensures { OwnPrepareKeepsTerm M.meaning M.IsText }
{}

// ---- commands

/// A leader that has proposed what it can, as after each step, has proposed a command at its next position, if there is
/// anything to propose there: a reported vote, a waiting request, or a gap to be filled.
pub fn an_elected_leader_has_proposed()
    ensures { LeaderHasProposed }
{}

/// Once a majority of the next position's members has replied to what a leader has proposed there, in any order, the
/// leader has executed it.
pub fn an_accepted_command_is_executed<M: Machine>()
    ensures { AcceptedCommandIsExecuted M.meaning M.IsText }
{}

/// A leader whose members do not change leads on: once a majority has replied to what it has proposed at its next
/// position, it leads at the position after those that it has executed, in the same ballot.
pub fn a_leader_leads_on<M: Machine>()
    ensures { LeaderLeadsOn M.meaning M.IsText }
{}

// ---- requests

/// A leader that is idle, and whose next position a majority has promised without a vote there, proposes a fresh
/// request at that position in the step that takes it.
pub fn a_fresh_request_is_proposed<M: Machine>()
    ensures { FreshRequestIsProposed M.meaning M.IsText }
{}

/// A node accepts a command of one of its next 2 alpha positions, if it has promised no greater ballot and keeps no
/// other command of the ballot there.
pub fn a_near_node_accepts<M: Machine>()
    ensures { NearNodeAccepts M.meaning M.IsText }
{}

/// Once a majority of the position's members has replied to a proposed request, in any order, the leader has executed
/// it and answered its client. So an idle leader with a majority near answers within four deliveries: the request, the
/// Accept, the Accepted and the answer.
pub fn an_accepted_request_is_answered<M: Machine>()
    ensures { AcceptedRequestIsAnswered M.meaning M.IsText }
{}

/// A request that waits at a node, and is fresh there, is answered by the step in which the node executes it.
pub fn an_executed_request_is_answered()
    ensures { ExecutedRequestIsAnswered }
{}

/// A quiet cluster answers. Quiet: a candidate is due, and nobody of a majority with it has promised a greater ballot,
/// has executed more or far less, or keeps a vote above that. If each takes what the others send, in order, a fresh
/// request is answered after one exchange: the Prepare, the Promise, the request, the Accept, the Accepted and the
/// answer.
pub fn a_quiet_majority_answers<M: Machine>()
    ensures { QuietMajorityAnswers M.meaning M.IsText }
{}

/// The nodes of a new cluster are quiet, so the premises of the law above can be met.
pub fn new_clusters_are_quiet()
    ensures { NewClustersAreQuiet }
{}

// ---- nodes that are behind

/// A node that hears of one that has executed more asks it for the rest: by a rejection, or by a notice of a leader
/// whose ballot is not below the promised one.
pub fn a_node_that_is_behind_asks<M: Machine>()
    ensures rejected { LaggingNodeAsks M.meaning M.IsText }
    ensures follows { FollowerAsks M.meaning M.IsText }
{}

/// A node that is asked for an executed position, or hears by a rejection of a node that has executed less, sends
/// commands from there on, up to 16, or up to 8 parts of its snapshot if that has replaced them.
pub fn a_node_that_is_ahead_sends<M: Machine>()
    ensures asked { WantIsAnswered M.meaning M.IsText }
    ensures hears { LaggingNodeIsFed M.meaning M.IsText }
{}

/// A node that hears decided commands from its next position on has executed all of them after that step.
pub fn decided_commands_are_executed<M: Machine>()
    ensures { DecidedIsExecuted M.meaning M.IsText }
{}

/// What a node has gathered of a snapshot grows with each part that it hears in order, and when it is whole, the node
/// installs it, and has executed as much as the snapshot.
pub fn heard_parts_are_installed<M: Machine>()
    ensures { PartsAreInstalled M.meaning M.IsText }
{}

/// A node that asks one that has executed more gets on by what it is sent: by 16 commands, or as far as the other, or
/// by parts of a snapshot that lengthen what it has gathered or complete it.
pub fn a_node_that_asks_gets_on<M: Machine>()
    ensures { LaggingNodeGetsOn M.meaning M.IsText }
{}
