// What each call of a device in memory does to its meter, and to the trap.
ghost use Rattle.std.specs.Prelude.{◌≡◌, true, false, IfOk, OnOk, OnErr};
ghost use Rattle.lk_disk.specs.Meters.{fresh, is_refused, is_unread, called, asked, trapped, disarmed, stopping};
ghost use Rattle.lk_disk.specs.Traps.{is_due, stops_next, trap_after};

use lk_disk::{DeviceFault, Meter, Trap};

/// Returns a meter without a trap or a fuse, which has counted no call.
pub fn new_meter() -> Meter
    ensures { result ≡ fresh }
{
    Meter {
        trap: Trap::Off,
        fuse: None,
        unread: 0,
        calls: 0,
        sprung: false,
        starved: false,
    }
}

// Counts the trap down by one changing call. Returns whether it goes off at that call. An armed trap stays afterwards,
// with count 0, for `armed_stop`.
fn count_down(trap: &mut Trap) -> bool
    ensures due { result ≡ is_due trap.old }
    ensures behind { trap.new ≡ trap_after trap.old }
{
    match *trap {
        Trap::Off => false,
        Trap::Fail(count) => {
            *trap = if count <= 1 {
                Trap::Off
            } else {
                Trap::Fail(count - 1)
            };
            count == 1
        }
        Trap::Arm(count, bytes) => {
            *trap = Trap::Arm(count.saturating_sub(1), bytes);
            count == 1
        }
    }
}

// Returns how many unsynced bytes the stop is to keep, if the next changing call is an armed stop.
fn next_stop(trap: Trap) -> Option<usize>
    ensures { result ≡ stops_next trap }
{
    match trap {
        Trap::Arm(1, bytes) => Some(bytes),
        _ => None,
    }
}

/// Counts a changing call. Fails if the trap or the fuse rejects it. Returns how many unsynced bytes the stop is to
/// keep, if the call is an armed stop.
pub fn count_call(meter: &mut Meter) -> Result<Option<usize>, DeviceFault>
    ensures ok { OnOk result (is_refused meter.old ≡ false) }
    ensures stop { IfOk result (λ stop. stop ≡ stops_next meter.old.trap) }
    ensures err { OnErr result (is_refused meter.old ≡ true) }
    ensures called { meter.new ≡ called meter.old }
{
    meter.calls = meter.calls.saturating_add(1);
    let stop = next_stop(meter.trap);
    let is_due = count_down(&mut meter.trap);
    let is_blown = meter.fuse == Some(0);
    meter.fuse = match stop {
        Some(_) => Some(0),
        None => meter.fuse.map(|left| left.saturating_sub(1)),
    };
    meter.sprung = meter.sprung || is_due;
    if (is_due && stop.is_none()) || is_blown {
        Err(DeviceFault)
    } else {
        Ok(stop)
    }
}

/// Counts a reading call. Fails if it is the one that was chosen to fail.
pub fn count_read(meter: &mut Meter) -> Result<(), DeviceFault>
    ensures ok { OnOk result (is_unread meter.old ≡ false) }
    ensures err { OnErr result (is_unread meter.old ≡ true) }
    ensures asked { meter.new ≡ asked meter.old }
{
    let is_unread = meter.unread == 1;
    meter.unread = meter.unread.saturating_sub(1);
    if is_unread { Err(DeviceFault) } else { Ok(()) }
}

/// Sets the trap, in place of a pending one, and resets `sprung` and `starved`.
pub fn set_trap(meter: &mut Meter, trap: Trap)
    ensures { meter.new ≡ trapped trap meter.old }
{
    meter.trap = trap;
    meter.sprung = false;
    meter.starved = false;
}

/// Removes the trap and the fuse.
pub fn disarm(meter: &mut Meter)
    ensures { meter.new ≡ disarmed meter.old }
{
    meter.trap = Trap::Off;
    meter.fuse = None;
}

/// Returns how many unsynced bytes the armed stop is to keep, if it was reached since the trap was last set.
pub fn armed_stop(meter: &Meter) -> Option<usize>
    ensures { result ≡ stopping meter.now }
{
    match meter.trap {
        Trap::Arm(_, bytes) if meter.sprung => Some(bytes),
        _ => None,
    }
}
