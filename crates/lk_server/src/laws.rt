//! Laws about the input of a server.

ghost use Rattle.std.specs.Prelude.{◌≡◌, ◌≢◌, ℕ, List, [], Some, IsSome};
ghost use Rattle.std.specs.declared.net.socket_addr.SocketAddr.{SocketAddr};
ghost use Rattle.lk_auth.specs.Seals.{key_list, heard};
ghost use Rattle.lk_auth.specs.declared.seals.Seals.{Seals};
ghost use Rattle.lk_node.specs.NodeValue.{NodeValue};
ghost use Rattle.lk_node.specs.Steps.{IsForeign};
ghost use Rattle.lk_transport.specs.Askers.{BringsProbe};
ghost use Rattle.lk_transport.specs.Watches.{BringsWatch};
ghost use Rattle.lk_transport.specs.declared.received_probe.ReceivedProbe.{ReceivedProbe};
ghost use Rattle.lk_transport.specs.declared.received_watch.ReceivedWatch.{ReceivedWatch};
ghost use Rattle.lk_server.specs.Premises.{IsFromANode, IsToldOrAsked, IsProbedByANode, IsProbedByWhomItNames};
ghost use Rattle.lk_server.specs.Premises.{IsUnsealed, IsWatchedByItsClient};

/// If the nodes have a key, whatever a server takes from a frame was sealed for this node by someone who has one of
/// the nodes' keys, or it is no node's message: it is a client's request, or it does not parse.
pub fn is_told_by_a_node()
    ensures { (s : Seals) (frame : List ℕ) → key_list s.nodes ≢ [] → IsFromANode s frame }
{}

/// If nodes and clients have keys, a request that a server takes from a frame was sealed by someone who has the key of
/// the client that it names. No client can act as another.
pub fn is_told_or_asked()
    ensures { (s : Seals) (frame : List ℕ) → key_list s.nodes ≢ [] → key_list s.clients ≢ [] → IsToldOrAsked s frame }
{}

/// If nodes and clients have keys, a frame that nobody sealed with one of them gives a replica the empty datagram. That
/// is no message of any cluster, so a node handles nothing (`HandlesBytes`): its step only proposes what was open.
pub fn unsealed_frames_are_ignored()
    ensures opens { (s : Seals) (frame : List ℕ) → key_list s.nodes ≢ [] → key_list s.clients ≢ [] → IsUnsealed s frame
        → heard s frame ≡ [] }
    ensures ignored { (node : NodeValue) → IsForeign node [] }
{}

/// A probe that is kept was sealed by whom it names. If nodes and clients have keys, someone has sealed it who has one
/// of the nodes' keys, or the key of the client that it names. If the nodes alone have a key, no client is known, but a
/// probe that names a node was sealed by one.
pub fn is_probed_by_whom_it_names()
    ensures keys { (s : Seals) (d : SocketAddr × List ℕ) (a : ReceivedProbe) → key_list s.nodes ≢ []
        → key_list s.clients ≢ [] → BringsProbe s d (Some a) → IsProbedByWhomItNames s d.1 a.probe }
    ensures node { (s : Seals) (d : SocketAddr × List ℕ) (a : ReceivedProbe) → key_list s.nodes ≢ []
        → key_list s.clients ≡ [] → IsSome a.probe.origin → BringsProbe s d (Some a) → IsProbedByANode s d.1 }
{}

/// If nodes and clients have keys, a watch that is kept was sealed by someone who has one of the nodes' keys, or the
/// key of the client that it names. No client can watch as another.
pub fn is_watched_by_its_client()
    ensures { (s : Seals) (d : SocketAddr × List ℕ) (r : ReceivedWatch) → key_list s.nodes ≢ []
        → key_list s.clients ≢ [] → BringsWatch s d (Some r) → IsWatchedByItsClient s d.1 r.watch }
{}
