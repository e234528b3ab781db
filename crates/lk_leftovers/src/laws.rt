//! Laws about a leader to which votes are reported: each is the contract of a function that does nothing but call the
//! laws of `lk_progress` on which it rests.
ghost use Rattle.lk_leftovers.specs.Accepting.{LeaderAccepts, VoterAccepts};
ghost use Rattle.lk_leftovers.specs.Collecting.{PromisedCandidateFills};
ghost use Rattle.lk_leftovers.specs.Filling.{FilledLeaderIsReady, LeaderFillsOn};

use lk_progress::laws::{
    a_leader_leads_on, a_near_node_accepts, a_promised_node_leads, an_elected_leader_has_proposed,
};
use lk_state::Machine;

/// A candidate that hears a majority promise leads, whatever votes of earlier ballots the promises report, if none of
/// them changes the members. What it has proposed by then, it has proposed at a reported vote's position or below one.
pub fn a_promised_candidate_fills<M: Machine>()
    ensures { PromisedCandidateFills M.meaning M.IsText }
{
    a_promised_node_leads::<M>();
}

/// A leader fills its next position: if a vote is reported there or above it, it has proposed a command there, and once
/// a majority has replied, it has executed more and fills on, with the same promises.
pub fn a_leader_fills_on<M: Machine>()
    ensures { LeaderFillsOn M.meaning M.IsText }
{
    an_elected_leader_has_proposed();
    a_leader_leads_on::<M>();
}

/// A near node that keeps only votes of smaller ballots from a position on accepts a vote there, and goes on like that:
/// it keeps only such votes from each later position on.
pub fn a_voter_accepts_and_stays<M: Machine>()
    ensures { VoterAccepts M.meaning M.IsText }
{
    a_near_node_accepts::<M>();
}

/// A leader that fills up and takes its own Accept accepts it too, and still fills up in its term.
pub fn a_leader_accepts_its_own<M: Machine>()
    ensures { LeaderAccepts M.meaning M.IsText }
{
    a_near_node_accepts::<M>();
}

/// A leader that has filled all positions up to the last reported vote is ready for a request.
pub fn a_filled_leader_is_ready()
    ensures { FilledLeaderIsReady }
{}
