//! Clocks that a test sets, and what a tick timer makes of them.

use lk_pacing::tick_timer::TickTimer;
use std::cell::Cell;
use std::io;
use std::test::Fail;
use std::time::{Clock, Duration};

/// A clock that stands still.
#[derive(Clone, Copy)]
pub struct Stopped;

impl Clock for Stopped {
    fn monotonic(&self) -> io::Result<Duration> {
        Ok(Duration::ZERO)
    }

    fn since_1970(&self) -> io::Result<Duration> {
        Ok(Duration::ZERO)
    }
}

// A clock that shows what it is set to, in milliseconds.
#[derive(Drop)]
struct Hands {
    shown: Cell<u64>,
}

impl Clock for Hands {
    fn monotonic(&self) -> io::Result<Duration> {
        Ok(Duration::from_millis(self.shown.get()))
    }

    fn since_1970(&self) -> io::Result<Duration> {
        self.monotonic()
    }
}

#[test]
fn a_tick_timer_elapses_each_100_ms(rt: HostRuntime) -> Result<(), Fail> {
    let clock = Hands {
        shown: Cell::new(7),
    };
    let mut tick_timer = TickTimer::new(&clock);
    assert_eq!(rt;
        (tick_timer.has_elapsed(), tick_timer.left()),
        (false, Duration::from_millis(100))
    );
    clock.shown.set(77);
    assert_eq!(rt;
        (tick_timer.has_elapsed(), tick_timer.left()),
        (false, Duration::from_millis(30))
    );
    clock.shown.set(377);
    assert_eq!(rt;
        (tick_timer.left(), tick_timer.has_elapsed()),
        (Duration::ZERO, true)
    );
    assert_eq!(rt;
        (tick_timer.has_elapsed(), tick_timer.left()),
        (false, Duration::from_millis(100))
    );
    clock.shown.set(400);
    tick_timer.reset();
    assert_eq!(rt; tick_timer.left(), Duration::from_millis(100));
    Ok(())
}
