// What the digest takes in of a board and of what a tick told.
#![tactic(auto)]

ghost use Rattle.std.specs.Prelude.{◌≡◌};
ghost use Rattle.digest.specs.Seen.{outcome_number, told_by, times_of, switched_of, waiting_of};

use answers::Outcome;
use channels::Channels;
use modes::ModeAge;
use watchdog::Event;
use wire::Reply;

// What a tick tells of its transfer as a number: the answer and 1, 0 where there was no transfer, and 99 where the tick
// did not happen.
fn outcome_number(outcome: Outcome) -> u16
    ensures { result ≡ outcome_number outcome }
{
    match outcome {
        Outcome::WrongWordCount => 99,
        Outcome::NoTransfer => 0,
        Outcome::Answered(answer) => 1 + answer as u16,
    }
}

// What the digest takes in of what a tick told.
// Kept: `replied` says of no value beside it whether it is there, but counts itself.
pub fn told(outcome: Outcome, event: Event, replied: bool) -> u64
    ensures { result ≡ told_by outcome event replied }
{
    13 * (event as u64) + 17 * (outcome_number(outcome) as u64) + 19 * (replied as u64)
}

// What the digest takes in of a mode, its age and the timer.
pub fn timed(phase: ModeAge, timer: u64) -> u64
    ensures { result ≡ times_of phase timer }
{
    5 * (phase.age() % 65536) + 7 * (timer % 65536) + 11 * (phase.mode() as u64)
}

// What the digest takes in of the channels at tick i. The remainder of a count is the count: it tells the prover its
// bound, here and below.
pub fn switched(channels: Channels, i: u64) -> u64
    ensures { result ≡ switched_of channels i }
{
    let count = channels.counts()[(i % 32) as usize];
    channels.on() as u64 + 3 * (channels.latched() as u64) + 31 * (count as u64 % 65536)
}

// What the digest takes in of the waiting reply at tick i: its length and one of its bytes, 0 past its end.
pub fn waiting(reply: Reply, i: u64) -> u64
    ensures { result ≡ waiting_of reply i }
{
    let at = (i % 274) as usize;
    let byte = if at < reply.len { reply.bytes[at] } else { 0 };
    23 * (reply.len as u64 % 65536) + 29 * (byte as u64 % 256)
}
