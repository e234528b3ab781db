//! Laws about the clients of a cluster: each request of one that asks only by runs of `locks ask` takes effect
//! exactly once.
ghost use Rattle.std.specs.Prelude.{◌≡◌, ℕ, List, [], ◌++◌};
ghost use Rattle.std.specs.declared.net.socket_addr.SocketAddr.{SocketAddr};
ghost use Rattle.lk_types.specs.declared.answer.Answer.{Answer};
ghost use Rattle.lk_node_interface.specs.declared.note.Note.{Note};
ghost use Rattle.lk_replica.specs.ReplicaValue.{ReplicaValue};
ghost use Rattle.lk_sim.specs.WorldStates.{WorldState};
ghost use Rattle.lk_client.specs.Rules.{SendsOnly};
ghost use Rattle.lk_client.specs.declared.question.Question.{Question};
ghost use Rattle.lk_guarantees.specs.ExactlyOnce.{FollowsRule};
ghost use Rattle.lk_guarantees.specs.Guarantee.{MeetsGuarantee};
ghost use Rattle.lk_cluster_theorems.specs.Asking.{AreRuns, HasAnswer, MayAsk, MayReach};
ghost use Rattle.lk_cluster_theorems.specs.Asking.{OnlyRunAsks, Run, BringsAnswer};
ghost use Rattle.lk_cluster_theorems.specs.Asking.{notes_of};

/// A client that follows the rule and runs `locks ask` once more still follows it, whatever the run sends and however
/// it ends, if all that it asked before has a smaller number and was answered, or is the same request.
pub fn a_run_follows_the_rule()
    ensures { (q : Question) (before later : List Note) (old new : List (SocketAddr × List ℕ))
        (run : SendsOnly q old new)
        → FollowsRule before q.request.client → MayAsk before q.request → OnlyRunAsks q before later run.more
        → FollowsRule (before ++ later) q.request.client }
{}

/// A client that asks by runs of `locks ask` alone, each after all earlier requests were answered, follows the rule. So
/// each of its requests takes effect exactly once.
pub fn runs_follow_the_rule()
    ensures { (client : ℕ) (runs : List Run) → AreRuns client [] runs → FollowsRule (notes_of [] runs) client }
{}

/// The answer that a run returns was given to its request by a node, if what reaches the client is not forged. So the
/// next run may ask.
pub fn a_run_returns_a_given_answer()
    ensures { (world : WorldState ReplicaValue) → MeetsGuarantee world → (q : Question) → q.cluster
        ≡ world.genesis.cluster
        → (d : SocketAddr × List ℕ) (answer : Answer) → BringsAnswer q d answer → MayReach world.genesis world.sent q d
        → HasAnswer world.trace q.request answer }
{}
