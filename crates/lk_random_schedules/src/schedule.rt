// Draws the events of a random schedule.
ghost use Rattle.std.specs.Prelude.{◌≢◌, ◌≤◌, length, IfOk, IfSome};
ghost use Rattle.std.specs.List.{AllByRecursion};
ghost use Rattle.lk_random_schedules.specs.Drawn.{IsDrawn, IsKind, IsNear, IsPart};
ghost use Rattle.lk_random_schedules.specs.declared.plan.Plan.{Plan as PlanValue};

use crate::draws::Draws;
use crate::event_kind::EventKind;
use crate::plan::Plan;
use crate::request::request;
use lk_agreement_laws::Party;
use lk_node_interface::NudgeReason;
use lk_replica::Datagram;
use lk_sim::{Event, GroupInput};
use lk_types::limits::MAX_COUNT;
use lk_types::{NoMemory, NodeNo};
use std::alloc::Global;

// A drawn stop keeps all unsynced bytes of a disk, or fewer than this many.
const SOME_BYTES: usize = 64;

// How many datagrams are drawn for a group; those addressed to its node join it.
const FOR_A_GROUP: usize = 16;

/// A source of random events: a generator, and how many events were drawn, at most 65,535.
#[derive(Drop)]
pub struct Schedule {
    draws: Draws,
    drawn: u16,
}

impl Schedule {
    /// Returns the schedule of this seed, from which no event was drawn.
    pub fn of(start: u64) -> Schedule {
        Schedule {
            draws: Draws::of(start),
            drawn: 0,
        }
    }

    // Draws node 1, 2 or 3, or in one of 32 cases node 4, which is never started.
    fn node(&mut self) -> NodeNo
        ensures { IsNear result }
    {
        let number = match self.draws.below(32) {
            0 => 4,
            n => 1 + n % 3,
        };
        NodeNo::of(number as u32).unwrap()
    }

    // Draws the number of one of `sent` datagrams, counted from 1, mostly of the last 64. It may draw 0, which no
    // datagram has.
    fn datagram_number(&mut self, sent: usize) -> usize
        ensures { result ≤ sent }
    {
        if self.draws.is_one_of(8) {
            return self.draws.below(sent.saturating_add(1));
        }
        let near = 1 + self.draws.below(64);
        sent.saturating_sub(self.draws.below(near))
    }

    // Draws how many unsynced bytes of a disk a stop keeps: in one of four cases all.
    fn kept(&mut self) -> usize {
        if self.draws.is_one_of(4) {
            return MAX_COUNT as usize;
        }
        self.draws.below(SOME_BYTES)
    }

    // Copies the bytes of a datagram with one of them redrawn, seldom none.
    fn changed(&mut self, alloc: Global, datagram: &Datagram) -> Result<Vec<u8>, NoMemory> {
        let mut bytes = datagram.bytes.to_vec(alloc)?;
        let at = self.draws.below(bytes.len().saturating_add(1));
        if let Some(byte) = bytes.get_mut(at) {
            *byte = self.draws.byte();
        }
        Ok(bytes)
    }

    // Draws 1 to 63 random bytes; at least one, as a script has no line that injects none.
    fn any_bytes(&mut self, alloc: Global) -> Result<Vec<u8>, NoMemory> {
        let mut bytes = Vec::new(alloc);
        for _ in 0..self.draws.below(64) {
            bytes.push(self.draws.byte())?;
        }
        if bytes.is_empty() {
            bytes.push(0)?;
        }
        Ok(bytes)
    }

    // Draws bytes to inject: mostly those of a datagram that was sent with one of them redrawn, or else random ones.
    fn bytes(&mut self, alloc: Global, sent: &[Datagram]) -> Result<Vec<u8>, NoMemory> {
        match sent.get(self.datagram_number(sent.len())) {
            Some(datagram) => self.changed(alloc, datagram),
            None => self.any_bytes(alloc),
        }
    }

    // Draws a datagram as an input of the node's group, or `None` if it is not addressed to the node.
    fn part(&mut self, node: NodeNo, sent: &[Datagram]) -> Option<GroupInput>
        ensures { IfSome result (IsPart (length sent.now)) }
    {
        let datagram_number = self.datagram_number(sent.len());
        let datagram = sent.get(datagram_number.checked_sub(1)?)?;
        match datagram.to {
            Party::Node(to) if to == node => Some(GroupInput::Deliver(datagram_number)),
            _ => None,
        }
    }

    // Draws the datagrams of a group of the node, some perhaps more than once.
    fn parts(
        &mut self,
        alloc: Global,
        node: NodeNo,
        sent: &[Datagram],
    ) -> Result<Vec<GroupInput>, NoMemory>
        ensures { IfOk result (λ group_inputs. AllByRecursion (IsPart (length sent.now)) group_inputs.items) }
    {
        let mut group_inputs = Vec::new(alloc);
        'parts: for _ in 0..FOR_A_GROUP {
            if let Some(group_input) = self.part(node, sent) {
                group_inputs.push(group_input)?;
            }
        }
        Ok(group_inputs)
    }

    // Draws the inputs of a group of the node: its datagrams, and a tick after them in one of four cases or if there
    // are none.
    fn group_inputs(
        &mut self,
        alloc: Global,
        node: NodeNo,
        sent: &[Datagram],
    ) -> Result<Vec<GroupInput>, NoMemory>
        ensures { IfOk result (λ group_inputs. AllByRecursion (IsPart (length sent.now)) group_inputs.items) }
    {
        let mut group_inputs = self.parts(alloc, node, sent)?;
        if group_inputs.is_empty() || self.draws.is_one_of(4) {
            group_inputs.push(GroupInput::Tick)?;
        }
        Ok(group_inputs)
    }

    // Draws the kind of the next event. If the plan has groups, they replace one in four deliveries; if it has nudges,
    // they replace one in four ticks.
    fn kind(&mut self, plan: Plan) -> EventKind
        ensures { IsKind plan result }
    {
        let kind = EventKind::of(self.draws.byte());
        if plan.groups && matches!(kind, EventKind::Deliver) && self.draws.is_one_of(4) {
            return EventKind::Group;
        }
        if plan.nudges && matches!(kind, EventKind::Tick) && self.draws.is_one_of(4) {
            return EventKind::Nudge;
        }
        kind
    }

    // Draws the reason of a nudge: that a period has ended, or that the node was fed.
    fn reason(&mut self) -> NudgeReason
        ensures { result ≢ NudgeReason.TicksWithheld }
    {
        if self.draws.is_one_of(2) {
            NudgeReason::Fed
        } else {
            NudgeReason::Period
        }
    }

    // Draws an event of that kind. The numbers of requests rise slowly, with how many events were drawn.
    fn event(
        &mut self,
        alloc: Global,
        kind: EventKind,
        sent: &[Datagram],
    ) -> Result<Event, NoMemory>
        ensures { (plan : PlanValue) → IsKind plan kind → IfOk result (IsDrawn plan (length sent.now)) }
    {
        let node = self.node();
        let event = match kind {
            EventKind::Restart => Event::Restart(node),
            EventKind::Tick => Event::Tick(node),
            EventKind::Nudge => Event::Nudge(node, self.reason()),
            EventKind::Compact => Event::Compact(node),
            EventKind::Client => Event::Client(node, request(&mut self.draws, self.drawn / 4)),
            EventKind::Deliver => Event::Deliver(self.datagram_number(sent.len())),
            EventKind::Group => Event::Group(node, self.group_inputs(alloc, node, sent)?),
            EventKind::Inject => Event::Inject(node, self.bytes(alloc, sent)?),
            EventKind::Stop => Event::Stop(node, self.kept(), self.kept()),
            EventKind::FailAt => Event::FailAt(node, 1 + self.draws.below(4) as u64),
            EventKind::Arm => Event::Arm(node, 1 + self.draws.below(8) as u64, self.kept()),
        };
        Ok(event)
    }

    /// Draws the next event of the plan in a world in which these datagrams were sent. Fails only when out of memory.
    pub fn next_event(
        &mut self,
        alloc: Global,
        plan: Plan,
        sent: &[Datagram],
    ) -> Result<Event, NoMemory>
        ensures { IfOk result (IsDrawn plan (length sent.now)) }
    {
        let kind = self.kind(plan);
        let event = self.event(alloc, kind, sent)?;
        self.drawn = self.drawn.saturating_add(1);
        Ok(event)
    }
}
