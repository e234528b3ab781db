// How a client that waits for a lock asks for it under one number after another.

ghost use Rattle.std.specs.Prelude.{◌≡◌, ◌+◌, true, false, IfOk, IfErr, IfSome, OnErr, IsSomeAnd};
ghost use Rattle.lk_client.specs.Questions.{IsAsked, IsFinal};
ghost use Rattle.lk_client.specs.Waits.{Asks, IsBusy, IsFinalStep, IsGrant, IsTryOrWatch, IsWatchOf, SendsAll};
ghost use Rattle.lk_client.specs.Waits.{TriesOnce, Waits, WatchesFor};
ghost use Rattle.lk_client.specs.Watches.{next_watch};
ghost use Rattle.lk_client.specs.Waiters.{StaysAfter, StaysAt};

use crate::holder::{busy_fence, is_grant};
use crate::question::{Question, bytes_to_send, send};
use crate::reply::Reply;
use crate::waiter::{Waiter, now};
use lk_program_fault::ProgramFault;
use lk_transport::receive_buffer::ReceiveBuffer;
use lk_transport::socket::DatagramSocket;
use lk_types::{Fence, RequestNumber};
use std::alloc::Global;
use std::time::Clock;

// How long the client waits for the reply of one place, in microseconds.
const PATIENCE: u64 = 500_000;

// More steps than any wait has.
const STEPS: u64 = 1 << 48;

// How a request ends: the client asks again under this number, or its wait is over.
#[derive(Clone, Copy)]
pub(crate) enum Step {
    Again(RequestNumber),
    Over(Option<Reply>),
}

// Returns the number of the next request, if there is one.
fn next_number(question: &Question) -> Option<RequestNumber>
    ensures { IfSome result (λ n. n ≡ question.now.request.number + 1) }
{
    RequestNumber::of(question.request.number.get() + 1)
}

impl Waiter {
    // Sends the request to the place that is asked next, and returns the reply that comes within half a second. If none
    // comes, or a node at another place leads, that or the next in turn is asked next.
    fn ask_once<S: DatagramSocket, C: Clock>(
        &mut self,
        alloc: Global,
        socket: &mut S,
        clock: &C,
        buffer: &mut ReceiveBuffer,
        question: &Question,
        bytes: &[u8],
    ) -> Option<Reply>
        requires watches { WatchesFor question.now self.old.watcher.watch }
        requires asked { IsAsked question.now bytes.now }
        ensures asks { S.is_observable → Asks S.sent S.incoming self.old.is_watching question.now result
            socket.old socket.new }
        ensures told { IfSome result IsFinal }
        ensures stays { StaysAt question.now self.old.is_watching self.new }
    {
        let asked = self.asked;
        let mut followed = 0;
        let until = now(clock).saturating_add(PATIENCE);
        send(socket, asked, bytes);
        'receives: for _ in 0..STEPS {
            let reply = self.hear_until(
                alloc,
                socket,
                clock,
                buffer,
                question,
                bytes,
                &mut followed,
                until,
            );
            if reply.is_some() {
                return reply;
            }
            if self.leaves(&asked, now(clock) >= until) {
                return None;
            }
        }
        None
    }

    // Sends the request to one place after another until a reply comes. Returns `None` once the time is over and it was
    // sent at least as often as there are places.
    fn ask<S: DatagramSocket, C: Clock>(
        &mut self,
        alloc: Global,
        socket: &mut S,
        clock: &C,
        buffer: &mut ReceiveBuffer,
        question: &Question,
    ) -> Result<Option<Reply>, ProgramFault>
        requires watches { WatchesFor question.now self.old.watcher.watch }
        ensures asks { S.is_observable → IfOk result (λ told. Asks S.sent S.incoming self.old.is_watching question.now
            told socket.old socket.new) }
        ensures told { IfOk result (λ reply. IfSome reply IsFinal) }
        ensures stays { IfOk result (λ _. StaysAt question.now self.old.is_watching self.new) }
        ensures err { OnErr result (socket.new ≡ socket.old) }
        ensures only { IfErr result (λ f. f ≡ ProgramFault.NoMemory) }
    {
        let bytes = bytes_to_send(alloc, question)?;
        let least = self.places.len() as u64;
        'places: for count in 1..STEPS {
            let reply = self.ask_once(alloc, socket, clock, buffer, question, &bytes);
            if reply.is_some() {
                return Ok(reply);
            }
            if count >= least && now(clock) >= self.end {
                return Ok(None);
            }
        }
        Ok(None)
    }

    // Sends watches and listens until it is time to ask again, or to give up.
    #[tactic(auto, using(crate::proofs::Sending::sends_nothing, crate::proofs::Sending::sends_both, crate::proofs::Sending::sends_to, crate::proofs::Sending::own_sends))]
    fn pause<S: DatagramSocket, C: Clock>(
        &mut self,
        alloc: Global,
        socket: &mut S,
        clock: &C,
        buffer: &mut ReceiveBuffer,
        question: &Question,
    )
        requires { WatchesFor question.now self.old.watcher.watch }
        ensures sends { S.is_observable
            → SendsAll (IsWatchOf question.now) (S.sent socket.old) (S.sent socket.new) }
        ensures stays { StaysAt question.now self.old.is_watching self.new }
    {
        'steps: for _ in 0..STEPS {
            let time = now(clock);
            if time >= self.end || self.schedule.is_due(time) {
                return;
            }
            self.renew(alloc, socket, question, time);
            let until = self.end.min(self.schedule.next_event(time));
            self.listen_until(socket, clock, buffer, question, until);
        }
    }

    // After a Busy with this fence: watches, and pauses.
    fn pause_at<S: DatagramSocket, C: Clock>(
        &mut self,
        alloc: Global,
        socket: &mut S,
        clock: &C,
        buffer: &mut ReceiveBuffer,
        question: &Question,
        fence: Fence,
    )
        requires { WatchesFor question.now self.old.watcher.watch }
        ensures sends { S.is_observable
            → SendsAll (IsWatchOf question.now) (S.sent socket.old) (S.sent socket.new) }
        ensures stays { StaysAt question.now true self.new }
    {
        self.is_watching = true;
        self.schedule.note_busy(fence, now(clock));
        self.watcher.set_fence(fence);
        self.pause(alloc, socket, clock, buffer, question);
    }

    // After a reply: if another client holds the lock, pauses, and returns the number under which to ask again, unless
    // the time is over or there is none.
    #[tactic(auto, using(crate::proofs::Sending::sends_nothing, crate::proofs::Lasting::busy_of, crate::proofs::Lasting::busy_not_grant))]
    fn number_after<S: DatagramSocket, C: Clock>(
        &mut self,
        alloc: Global,
        socket: &mut S,
        clock: &C,
        buffer: &mut ReceiveBuffer,
        question: &Question,
        reply: &Option<Reply>,
    ) -> Option<RequestNumber>
        requires { WatchesFor question.now self.old.watcher.watch }
        ensures number { IfSome result (λ n. n ≡ question.now.request.number + 1) }
        ensures busy { IfSome result (λ _. IsSomeAnd reply.now (IsBusy question.now.request.client)) }
        ensures watching { IfSome result (λ _. self.new.is_watching ≡ true) }
        ensures granted { IsSomeAnd reply.now IsGrant → S.sent socket.new ≡ S.sent socket.old }
        ensures sends { S.is_observable
            → SendsAll (IsWatchOf question.now) (S.sent socket.old) (S.sent socket.new) }
        ensures watches { WatchesFor question.now self.new.watcher.watch }
    {
        let Some(fence) = busy_fence(question.request.client, reply) else {
            return None;
        };
        self.pause_at(alloc, socket, clock, buffer, question, fence);
        if now(clock) >= self.end {
            return None;
        }
        next_number(question)
    }

    // After the last reply: withdraws its watches, unless that is a grant, which does it by itself.
    #[tactic(auto, using(crate::proofs::Sending::sends_nothing))]
    fn withdraw<S: DatagramSocket>(
        &mut self,
        alloc: Global,
        socket: &mut S,
        question: &Question,
        reply: &Option<Reply>,
    )
        requires { WatchesFor question.now self.old.watcher.watch }
        ensures granted { IsSomeAnd reply.now IsGrant → S.sent socket.new ≡ S.sent socket.old }
        // The last watch is one that withdraws.
        ensures withdrawn { self.old.is_watching ≡ true → (IsSomeAnd reply.now IsGrant → ⊥)
            → self.new.watcher.watch ≡ next_watch 0 self.old.watcher.watch }
        ensures sends { S.is_observable
            → SendsAll (IsWatchOf question.now) (S.sent socket.old) (S.sent socket.new) }
        ensures watches { WatchesFor question.now self.new.watcher.watch }
    {
        if !self.is_watching || is_grant(reply) {
            return;
        }
        self.send_watch(alloc, socket, question, 0);
    }

    // Asks under one number, and pauses if another client holds the lock.
    fn try_once<S: DatagramSocket, C: Clock>(
        &mut self,
        alloc: Global,
        socket: &mut S,
        clock: &C,
        buffer: &mut ReceiveBuffer,
        question: &Question,
    ) -> Result<Step, ProgramFault>
        requires { WatchesFor question.now self.old.watcher.watch }
        ensures tries { S.is_observable → IfOk result (λ step. TriesOnce S.sent S.incoming
            self.old.is_watching question.now step socket.old socket.new) }
        ensures told { IfOk result IsFinalStep }
        ensures stays { IfOk result (λ step. StaysAfter question.now step self.new) }
        ensures err { OnErr result (socket.new ≡ socket.old) }
        ensures only { IfErr result (λ f. f ≡ ProgramFault.NoMemory) }
    {
        let reply = self.ask(alloc, socket, clock, buffer, question)?;
        match self.number_after(alloc, socket, clock, buffer, question, &reply) {
            Some(number) => Ok(Step::Again(number)),
            None => {
                self.withdraw(alloc, socket, question, &reply);
                Ok(Step::Over(reply))
            }
        }
    }

    /// Asks until the lock is granted, refused for another reason than a holder, or the time is over. Returns the reply
    /// to the last request, or `None` if that has none. The question gets the number of that request.
    pub(crate) fn wait<S: DatagramSocket, C: Clock>(
        &mut self,
        alloc: Global,
        socket: &mut S,
        clock: &C,
        question: &mut Question,
    ) -> Result<Option<Reply>, ProgramFault>
        requires { StaysAt question.old false self.old }
        // Whether it fails or not, it has sent nothing but its request, under rising numbers, and watches.
        ensures sends { S.is_observable → SendsAll (IsTryOrWatch question.old question.new.request.number)
            (S.sent socket.old) (S.sent socket.new) }
        // It takes the next number only after a Busy, and returns what it was told under the last one.
        ensures waits { S.is_observable → IfOk result (λ told. Waits S.sent S.incoming question.old
            question.new.request.number told socket.old socket.new) }
        ensures told { IfOk result (λ reply. IfSome reply IsFinal) }
        ensures only { IfErr result (λ f. f ≡ ProgramFault.NoMemory) }
    {
        let mut buffer = ReceiveBuffer::new();
        'tries: for _ in 0..STEPS {
            match self.try_once(alloc, socket, clock, &mut buffer, question)? {
                Step::Again(number) => question.request.number = number,
                Step::Over(reply) => return Ok(reply),
            }
        }
        Ok(None)
    }
}
