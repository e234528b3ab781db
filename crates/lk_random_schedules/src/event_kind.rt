// The kinds of events that are drawn, and how often each is.
ghost use Rattle.lk_random_schedules.specs.Drawn.{IsKind};
ghost use Rattle.lk_random_schedules.specs.declared.plan.Plan.{Plan as PlanValue};

/// The kinds of events that are drawn: all but a Start.
#[derive(Clone, Copy)]
pub enum EventKind {
    Restart,
    Tick,
    Nudge,
    Compact,
    Client,
    Deliver,
    Group,
    Inject,
    Stop,
    FailAt,
    Arm,
}

impl EventKind {
    /// Returns the kind for a drawn byte; how many bytes a kind has is its weight. Never a Group or a Nudge: groups
    /// replace some deliveries, nudges some ticks.
    pub fn of(case: u8) -> EventKind
        ensures { (plan : PlanValue) → IsKind plan result }
    {
        match case {
            0..=183 => EventKind::Deliver,
            184..=219 => EventKind::Client,
            220..=233 => EventKind::Tick,
            234..=240 => EventKind::Restart,
            241..=249 => EventKind::Inject,
            250 => EventKind::Compact,
            251..=252 => EventKind::Stop,
            253 => EventKind::FailAt,
            254..=255 => EventKind::Arm,
        }
    }
}
