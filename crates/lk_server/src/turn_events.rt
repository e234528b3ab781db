//! What happened to a node in a turn, for the observer of its events.

ghost use Rattle.std.specs.Prelude.{◌≡◌, ◌≤◌, ◌<◌, ◌||◌, ℕ, Some, None};
ghost use Rattle.lk_address_book.specs.Arrivals.{sender};
ghost use Rattle.lk_waiting.specs.FullQueues.{says_full};

use lk_address_book::arrival::Arrival;
use lk_probe::StateDigest;
use lk_server_replica::replica_status::ReplicaStatus;
use lk_transport::post::SendSummary;
use lk_transport::unopened::UnopenedFrame;
use lk_types::{Executed, NodeNo};
use lk_watch::{Envelope, News, Watch};

/// What happened to a node in a turn that its state after the turn does not show.
#[derive(Clone, Copy)]
pub struct TurnEvents {
    /// The snapshot that it installed last, and the node that sent the last part of it.
    pub installed: Option<(Executed, NodeNo)>,
    /// The fate of what it sent.
    pub sends: SendSummary,
    /// The node of another genesis that it heard, if that is to be reported.
    pub stranger: Option<NodeNo>,
    /// How many datagrams of another cluster have come, if that is to be reported.
    pub foreign: Option<u64>,
    /// A node's frame that did not open, if that is to be reported.
    pub unopened: Option<UnopenedFrame>,
    /// The client that is no admin whose administrative request was dropped, if that is to be reported.
    pub barred: Option<u16>,
    /// Whether the file of the hosts can be used, if it was read again and that is to be reported.
    pub are_hosts_usable: Option<bool>,
    /// The node whose state a report told, and the digest that it told, if a report of form 2 came.
    pub told: Option<(NodeNo, StateDigest)>,
    /// Whether a watch was answered that the queue of those who wait has no room for its client.
    pub is_queue_full: bool,
}

impl TurnEvents {
    /// Nothing happened.
    pub const NOTHING: TurnEvents = TurnEvents {
        installed: None,
        sends: SendSummary::NOTHING,
        stranger: None,
        foreign: None,
        unopened: None,
        barred: None,
        are_hosts_usable: None,
        told: None,
        is_queue_full: false,
    };

    /// Records the snapshot that the replica installed at this input, if it did and a node sent the input.
    pub fn note_installed(
        &mut self,
        arrival: &Arrival,
        before: &ReplicaStatus,
        after: &ReplicaStatus,
    )
        // A snapshot of more positions than were executed before was installed, and the node that sent what came sent
        // the last part of it.
        ensures installed { (n : ℕ) → sender arrival.now ≡ Some n → before.now.executed < after.now.snapshot
            → self.new ≡ record self.old { installed = Some (after.now.snapshot, n) } }
        ensures no_more { after.now.snapshot ≤ before.now.executed → self.new ≡ self.old }
        ensures no_node { sender arrival.now ≡ None → self.new ≡ self.old }
    {
        match arrival.node() {
            Some(node) if after.snapshot.get() > before.executed.get() => {
                self.installed = Some((after.snapshot, node));
            }
            _ => {}
        }
    }

    /// Records that the queue of those who wait is full, if the answer to a watch says that.
    pub fn note_answer(&mut self, watch: &Watch, answer: &Envelope)
        ensures { self.new ≡ record self.old {
          is_queue_full = self.old.is_queue_full || says_full watch.now answer.now;
        } }
    {
        let is_kept_out = watch.periods > 0 && answer.place == 0;
        if is_kept_out && answer.news == News::Held {
            self.is_queue_full = true;
        }
    }
}
