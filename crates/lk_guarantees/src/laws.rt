//! Laws that follow from the definitions of the guarantee: linearizability, fencing, exactly once, convergence,
//! restarts.
ghost use Rattle.std.specs.Prelude.{ℕ, List};
ghost use Rattle.lk_memory_disk.specs.Memory.{Memory};
ghost use Rattle.lk_store_format.specs.Values.{HeaderValue};
ghost use Rattle.lk_node_interface.specs.declared.note.Note.{Note};
ghost use Rattle.lk_types.specs.Geneses.{IsGenesis};
ghost use Rattle.lk_types.specs.declared.command.Command.{Command};
ghost use Rattle.lk_types.specs.declared.genesis.Genesis.{Genesis};
ghost use Rattle.lk_replica.specs.ReplicaValue.{ReplicaValue};
ghost use Rattle.lk_sim.specs.WorldStates.{WorldState};
ghost use Rattle.lk_sim.specs.declared.end.RunEnd.{RunEnd};
ghost use Rattle.lk_sim.specs.declared.event.Event.{Event};
ghost use Rattle.lk_sim.specs.declared.event.Event.TheVariants as event;
ghost use Rattle.lk_guarantees.specs.ComingBack.{ComesBack};
ghost use Rattle.lk_guarantees.specs.Converging.{Converges};
ghost use Rattle.lk_guarantees.specs.Events.{AreDone, IsDone, IsReachable, IsRun, IsUp};
ghost use Rattle.lk_guarantees.specs.ExactlyOnce.{AreExactlyOnce};
ghost use Rattle.lk_guarantees.specs.Guarded.{AreListed, FencesRise, IsGuarded, Write};
ghost use Rattle.lk_guarantees.specs.Joining.{JoinsOnce};
ghost use Rattle.lk_guarantees.specs.Linear.{IsLinearizable};
ghost use Rattle.lk_guarantees.specs.Plain.{FixedUnlessChanged, TakesEffectOnce};
ghost use Rattle.lk_guarantees.specs.Guarantee.{Explains, MeetsGuarantee};
ghost use Rattle.lk_guarantees.specs.Replies.{ExplainsReplies};
ghost use Rattle.lk_guarantees.specs.Restarting.{ComesUp, FindsFormatTwo, IsIdempotent, IsTheSame, ReadsFormatTwo};
ghost use Rattle.lk_guarantees.specs.Restarting.{stops_and_restarts};

/// A list in which nobody asks to join or to leave names the members of the genesis at each position.
pub fn members_stay_fixed()
    ensures { (genesis : Genesis) (L : List Command) → FixedUnlessChanged genesis L }
{}

/// Each number of a client takes effect at most at one position of a list.
pub fn numbers_take_effect_once()
    ensures { (genesis : Genesis) (L : List Command) → TakesEffectOnce genesis L }
{}

/// What clients see of a world that meets the guarantee is linearizable: some legal sequential history of the lock
/// table and the members completes each request that was answered, and keeps the order of real time.
pub fn worlds_are_linearizable()
    ensures { (world : WorldState ReplicaValue) → MeetsGuarantee world → IsLinearizable world.genesis world.trace }
{}

/// The fences of a name's exclusive grants rise along a list, and none is given twice (sequencers: Burrows, The Chubby
/// lock service, 2006).
pub fn fences_rise()
    ensures { (genesis : Genesis) (L : List Command) (name : List ℕ) → FencesRise genesis L name }
{}

/// Whoever joins was never a member before: the number of a node that has left is not given to another one.
pub fn numbers_join_once()
    ensures { (genesis : Genesis) (L : List Command) → JoinsOnce genesis L }
{}

/// A resource that accepts a write only at or above the highest fence that it has seen is guarded by the name: its
/// accepted writes at one fence are made under one grant, and after a write under a later grant it accepts none under
/// an earlier one.
pub fn fences_guard_resources()
    ensures { (genesis : Genesis) (L : List Command) (name : List ℕ) (writes : List Write)
        → IsGuarded genesis L name writes }
{}

/// Each grant that a client of a world that meets the guarantee was told is in some chosen list, for a name that its
/// request acquires.
pub fn grants_are_listed()
    ensures { (world : WorldState ReplicaValue) → MeetsGuarantee world → AreListed world.genesis world.sent
        world.trace }
{}

/// A list that explains what was noted in a world that meets the guarantee explains each datagram to a client.
pub fn replies_are_explained()
    ensures { (world : WorldState ReplicaValue) (L : List Command) → MeetsGuarantee world
        → Explains world.genesis world.sent world.trace L → ExplainsReplies world.genesis world.sent L }
{}

/// Exactly once: of a world that meets the guarantee, each operation of a client that follows the rule takes effect at
/// one position where it was answered, in the order in which the client asked, and before it is answered the client is
/// not told Passed.
pub fn operations_take_effect_exactly_once()
    ensures { (world : WorldState ReplicaValue) → MeetsGuarantee world
        → AreExactlyOnce world.genesis world.sent world.trace }
{}

/// Convergence: in a world that meets the guarantee, nodes that have executed equally many commands have the same
/// state, to the byte, and so do snapshots of one position.
pub fn nodes_converge()
    ensures { (world : WorldState ReplicaValue) → MeetsGuarantee world → Converges world }
{}

/// Restarts are idempotent: however often a node is stopped and started again, and whatever its disks keep of what was
/// not synced, it is the same node and notes the same. It restarts each time, unless memory runs out or a call of its
/// device fails.
pub fn restarts_are_idempotent()
    ensures { (header : HeaderValue) (device : Memory) (replica : ReplicaValue) (notes : List Note)
        → ReadsFormatTwo device → ComesUp header device replica notes → IsIdempotent header replica notes }
{}

/// A run of events leads from a reachable world to a reachable world, even if one of them is rejected.
pub fn worlds_stay_reachable()
    ensures { (genesis : Genesis) (world : WorldState ReplicaValue) (events : List Event) (how : RunEnd)
        (new : WorldState ReplicaValue) → IsReachable genesis world → IsRun world events how new
        → IsReachable genesis new }
{}

/// A node that is down comes back: in a world of a valid genesis that meets the guarantee, as each world does that
/// `apply` leaves, a restart from the node's disks fails only when out of memory, or if a call of its device failed, or
/// if its file has format 1 and the last generation. In a reachable one a Restart is rejected only when out of memory,
/// and so leaves the node up, unless something makes a call of its device fail or stop. Recovery accepts whatever a
/// crash may leave (Chen et al., FSCQ, 2015).
pub fn a_node_comes_back()
    ensures { (genesis : Genesis) (world : WorldState ReplicaValue) → IsGenesis world.genesis
        → IsReachable genesis world
        → MeetsGuarantee world → ComesBack world }
{}

/// Restarts of a world are idempotent: after a restart in a reachable world a node may be stopped and restarted however
/// often, whatever its disks keep of what was not synced. If it is up in the end, it is the same node on the same live
/// file, each restart has noted the same, and nothing else has changed (recovery may be repeated: Mohan et al., ARIES,
/// 1992).
pub fn a_node_comes_back_the_same()
    ensures { (genesis : Genesis) (world first last : WorldState ReplicaValue) (n : ℕ) (more : List (ℕ × ℕ))
        → IsReachable genesis world → FindsFormatTwo world n
        → IsDone world (event.Restart n) first → AreDone (stops_and_restarts n more) first last → IsUp last.sim_nodes n
        → IsTheSame n world first more last }
{}
