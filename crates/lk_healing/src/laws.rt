//! Laws about the premises of `answer`, `contend`, `level` and `heal`, and about the worlds that meet them: each is the
//! contract of a function that does nothing but call the laws on which it rests.
ghost use Rattle.lk_healing.specs.Answers.{NewWorldsAreQuietFor};
ghost use Rattle.lk_healing.specs.Contending.{NewWorldsMayContendFor};
ghost use Rattle.lk_healing.specs.Heals.{NewWorldsMayHeal};
ghost use Rattle.lk_healing.specs.Histories.{RunsAreHistories, UnchangedWorldsMayHeal};
ghost use Rattle.lk_healing.specs.Levels.{NewWorldsMayLevel};

use lk_progress::laws::new_clusters_are_quiet;
use lk_state::Machine;
use lk_world_leftovers::laws::new_worlds_contend;

// ---- new worlds

/// The nodes of a new cluster, one of which is due, meet the premises of `answer`.
pub fn new_worlds_are_quiet_for_a_request<M: Machine>()
    ensures { NewWorldsAreQuietFor M.meaning M.IsText }
{
    new_clusters_are_quiet();
    new_worlds_contend::<M>();
}

/// They meet those of `contend`.
pub fn new_worlds_may_contend_for_a_request<M: Machine>()
    ensures { NewWorldsMayContendFor M.meaning M.IsText }
{
    new_clusters_are_quiet();
    new_worlds_contend::<M>();
}

/// They meet those of `level`.
pub fn new_worlds_may_level<M: Machine>()
    ensures { NewWorldsMayLevel M.meaning M.IsText }
{
    new_clusters_are_quiet();
}

/// They meet those of `heal`.
pub fn new_worlds_may_heal<M: Machine>()
    ensures { NewWorldsMayHeal M.meaning M.IsText }
{
    new_clusters_are_quiet();
}

// ---- worlds with a history

/// What `run` does comes of some of its events, executed or rejected one after another.
pub fn runs_are_histories<M: Machine>()
    ensures { RunsAreHistories M.meaning M.IsText }
{}

/// Whatever events have brought a world about from a new one, any majority of its members meets the premises of `heal`,
/// unless one of the events has asked to change the members.
pub fn unchanged_worlds_may_heal<M: Machine>()
    ensures { UnchangedWorldsMayHeal M.meaning M.IsText }
{}
