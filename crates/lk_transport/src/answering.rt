//! Answers probes: which are answered, to where the report goes, and whose address they make known.

ghost use Rattle.std.specs.Prelude.{◌≡◌, ◌≢◌, [], IfOk, IsErr, Some};
ghost use Rattle.lk_auth.specs.Seals.{heard};
ghost use Rattle.lk_address_book.specs.Addresses.{IsSameFilter};
ghost use Rattle.lk_transport.specs.Askers.{BringsProbe, IsReplyAddress, IsReplyOf, RecordsKeptProber, Replies};
ghost use Rattle.lk_transport.specs.Askers.{frame_for, keys_to};
ghost use Rattle.lk_transport.specs.Posts.{send_state_of};

use crate::post::{SocketPost, framed, route};
use crate::received_probe::ReceivedProbe;
use crate::socket::DatagramSocket;
use lk_address_book::addresses::Addresses;
use lk_address_book::prober_records::port_among;
use lk_auth::Seals;
use lk_node_interface::{SendFault, To};
use lk_types::{Member, NodeNo};
use std::alloc::AllocError;
use std::net::SocketAddr;

// Returns where the report to a probe from `from` goes that names this node, if it names one: to a member where its
// envelopes go, if that is known; else to where the probe came from.
fn reply_address(
    addresses: &Addresses,
    members: &[Member],
    asker: Option<NodeNo>,
    from: SocketAddr,
) -> SocketAddr
    ensures { IsReplyOf addresses.now members.now asker from result }
{
    let Some(node) = asker else {
        return from;
    };
    match port_among(members, node) {
        Some(port) => route(addresses, &To::Node(node, port.get())).unwrap_or(from),
        None => from,
    }
}

// Returns the bytes to send for a report: framed for the asker, or the report itself if its probe named none.
fn framed_for<'a>(
    seals: &Seals,
    asker: &Option<To>,
    report: &'a [u8],
    frame: &'a mut Vec<u8>,
) -> Result<&'a [u8], AllocError>
    ensures ok { IfOk result (λ f. f.now ≡ frame_for seals.now asker.now report.now) }
    ensures refused { IsErr result → keys_to seals.now asker.now ≢ [] }
{
    match asker {
        Some(to) => framed(seals, to, report, frame),
        None => Ok(report),
    }
}

impl<S: DatagramSocket + Drop> SocketPost<S> {
    /// Parses the probe in a datagram, which was opened from a frame that arrived from an address; `None` if it is not
    /// to be answered (see `ReceivedProbe::by`).
    pub fn read_probe(
        &self,
        from: SocketAddr,
        frame: &[u8],
        datagram: &[u8],
    ) -> Option<ReceivedProbe>
        requires { datagram.now ≡ heard self.now.addresses.seals frame.now }
        ensures { BringsProbe self.now.addresses.seals (from, frame.now) result }
    {
        ReceivedProbe::by(self.addresses.seals(), from, frame, datagram)
    }

    /// Returns where the report that replies to a probe goes: to one of these members where its envelopes go, if that
    /// is known, so that a node whose datagrams come from elsewhere hears what others hear; else to where the probe
    /// came from.
    pub fn reply_address(&self, members: &[Member], asked: &ReceivedProbe) -> SocketAddr
        ensures { IsReplyAddress self.now.addresses members.now asked.now result }
    {
        let asker = asked.probe.node();
        reply_address(&self.addresses, members, asker, asked.from)
    }

    /// Records the address of a probe if another node of this genesis sent it that is one of these members: without
    /// keys only if no address of it is known.
    pub fn record_prober(&mut self, members: &[Member], asked: &ReceivedProbe)
        ensures records { RecordsKeptProber self.old.node members.now (Some asked.now)
            self.old.addresses self.new.addresses }
        ensures network { IsSameFilter self.old.addresses self.new.addresses }
        ensures others { self.new ≡ record self.old { addresses = self.new.addresses } }
    {
        self.addresses
            .record_prober(self.node, members, &asked.probe.origin, asked.from);
    }

    /// Sends a report to an address, framed for the asker if its probe names one. A failure is not counted in the
    /// group.
    pub fn reply(
        &mut self,
        asked: &ReceivedProbe,
        address: SocketAddr,
        report: &[u8],
    ) -> Result<(), SendFault>
        ensures replies { Replies S.is_observable self.old.addresses.seals asked.now address report.now
            (send_state_of self.old) (send_state_of self.new) }
        ensures still { S.is_observable → self.new.incoming ≡ self.old.incoming }
        ensures others { self.new
            ≡ record self.old {
              sent = self.new.sent;
              socket_failures = self.new.socket_failures;
              incoming = self.new.incoming;
            } }
    {
        let Ok(framed) = framed_for(
            self.addresses.seals(),
            &asked.asker(),
            report,
            &mut self.frame,
        ) else {
            return Err(SendFault);
        };
        self.socket.send_to(address, framed)
    }
}
