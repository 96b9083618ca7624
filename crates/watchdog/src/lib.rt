// The TTC watchdog: its timer, and the two things that come of it where no command fed it.
#![tactic(auto)]

ghost use Rattle.std.specs.Prelude.{◌≡◌, ◌+◌, ◌*◌, ◌≤◌, ◌<◌};
ghost use Rattle.watchdog.specs.Watchdog.{risen_of, watched_of, seconds_in_ticks};
ghost use Rattle.watchdog.specs.Report.{ReportAt};

// What the watchdog does in a tick.
#[derive(Clone, Copy, PartialEq, Eq)]
pub enum Event {
    NoEvent,
    PeripheralReset,
    WatchdogReset,
}

// The timer, one tick later; it stops at the top.
#[tactic(auto, unfolding(crate::specs::Watchdog::risen_of))]
pub fn risen(timer: u64) -> u64
    ensures { result ≡ risen_of timer }
{
    timer.saturating_add(1)
}

// A time in seconds as ticks.
pub fn seconds_in_ticks(seconds: u16) -> u64
    ensures { result ≡ seconds_in_ticks seconds }
{
    u64::from(seconds) * 100
}

// The one timer value at which 65 hundredths of the timeout are reached. Taken as the timeout less 35 hundredths of it,
// since 65 times a large one would not fit.
fn report_at(timeout: u64) -> u64
    ensures { ReportAt timeout result }
{
    timeout - (timeout / 100 * 35 + timeout % 100 * 35 / 100)
}

// What comes of a timer and a timeout; a timeout of 0 disables both events.
pub fn watched(timer: u64, timeout: u64) -> Event
    ensures { result ≡ watched_of timer timeout }
{
    if timeout == 0 {
        return Event::NoEvent;
    }
    if timer >= timeout {
        return Event::WatchdogReset;
    }
    if timer == report_at(timeout) {
        return Event::PeripheralReset;
    }
    Event::NoEvent
}
