// What a change of mode brings with it: for the channels, for the watchdog's timer, and for the power reset count.
#![tactic(auto)]

ghost use Rattle.std.specs.Prelude.{◌≡◌};
ghost use Rattle.change.specs.Change.{is_dark, from_nominal_to_safety, leaves_emergency, entering_of, timer_after, left_emergency, resets_after};

use channels::Channels;
use modes::Mode;
use state::{Cause, Profile, Resets};

// Whether every channel is off in a mode.
#[tactic(auto, unfolding(crate::specs::Change::is_dark))]
fn is_dark(mode: Mode) -> bool
    ensures { result ≡ is_dark mode }
{
    matches!(mode, Mode::Startup | Mode::Emergency)
}

// Whether nominal is left for safety.
#[tactic(auto, unfolding(crate::specs::Change::from_nominal_to_safety))]
fn from_nominal_to_safety(before: Mode, after: Mode) -> bool
    ensures { result ≡ from_nominal_to_safety before after }
{
    before == Mode::Nominal && after == Mode::Safety
}

// Whether emergency is left.
#[tactic(auto, unfolding(crate::specs::Change::leaves_emergency))]
fn leaves_emergency(before: Mode, after: Mode) -> bool
    ensures { result ≡ leaves_emergency before after }
{
    before == Mode::Emergency && after != Mode::Emergency
}

// The channels after the mode went from one to another, or stayed.
// Kept: each case changes them in place, and they leave at one place only. Where every case has a way out of its own,
// the compiler copies their counts in each of them.
#[tactic(auto, unfolding(crate::specs::Change::entering_of))]
pub fn entering(before: Mode, after: Mode, p: Profile, mut c: Channels) -> Channels
    ensures { result ≡ entering_of before after p c }
{
    if is_dark(after) {
        c = c.all_off();
    } else if is_dark(before) {
        c = c.forced_on(p.fitted, p.forced);
    } else if from_nominal_to_safety(before, after) {
        c = c.command_enabled_off(p.fitted, p.forced);
    }
    c
}

// The watchdog's timer after the mode went from one to another, or stayed.
#[tactic(auto, unfolding(crate::specs::Change::timer_after))]
pub fn timer_after(before: Mode, after: Mode, timer: u64) -> u64
    ensures { result ≡ timer_after before after timer }
{
    if is_dark(before) || is_dark(after) {
        0
    } else {
        timer
    }
}

// The counts and the cause once emergency was left.
#[tactic(auto, unfolding(crate::specs::Change::left_emergency))]
fn left_emergency(r: Resets) -> Resets
    ensures { result ≡ left_emergency r }
{
    Resets {
        power: memory::one_more(r.power),
        cause: Cause::Emergency,
        ..r
    }
}

// The counts and the cause after the mode went from one to another, or stayed.
#[tactic(auto, unfolding(crate::specs::Change::resets_after))]
pub fn resets_after(before: Mode, after: Mode, r: Resets) -> Resets
    ensures { result ≡ resets_after before after r }
{
    if leaves_emergency(before, after) {
        left_emergency(r)
    } else {
        r
    }
}
