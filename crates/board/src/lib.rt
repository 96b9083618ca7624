// One tick of a board: five steps, one after another.
#![tactic(auto)]

ghost use Rattle.std.specs.Prelude.{cond, ◌&&◌, [], ◌≡◌};
ghost use Rattle.kinds.specs.Kinds.{board_of};
ghost use Rattle.watchdog.specs.Watchdog.{watched_of};
ghost use Rattle.watchdog.specs.declared.Event.TheVariants.{NoEvent};
ghost use Rattle.answers.specs.Answers.{told_number};
ghost use Rattle.asking.specs.Sent.{is_sent, bytes_sent};
ghost use Rattle.answers.specs.declared.Outcome.TheVariants.{NoTransfer, WrongWordCount};
ghost use Rattle.channels.specs.Operations.{overcurrent_at};
ghost use Rattle.change.specs.Change.{entering_of};
ghost use Rattle.board.specs.Parts.{settled_in, is_reset};
ghost use Rattle.board.specs.Tick.{newly_measured, risen_of, changed_of, tripped_of, allowed_count, tick_of, tick_number};

use answers::Outcome;
use channels::Channels;
use modes::{Limits, Mode, ModeAge};
use state::{Board, Fresh, Measured, Profile, Resets};
use watchdog::Event;

// The board after a tick, what the tick tells of its transfer, what the watchdog did, and whether the tick made a reply
// that is still there.
// Kept: `replied` has no value beside it; the reply waits in the board.
#[derive(Clone, Copy)]
pub struct Ticked {
    pub board: Board,
    pub outcome: Outcome,
    pub event: Event,
    pub replied: bool,
}

// The parts of a board that steps 1 to 3 change, but for the measured words.
#[derive(Clone, Copy)]
struct Settled {
    phase: ModeAge,
    timer: u64,
    channels: Channels,
    resets: Resets,
}

// The channels after the mode went from one to another, or stayed, and then each named one that is on tripped.
// Kept: the mode before and the mode after stand side by side, here and in `change`, as the table names them.
fn channels_after(before: Mode, after: Mode, p: Profile, c: Channels, named: u32) -> Channels
    ensures { result ≡ overcurrent_at named (entering_of before after p c) }
{
    change::entering(before, after, p, c).overcurrent(named)
}

// What steps 1 to 3 make of these parts: mode and timer are a tick older, then the table may change the mode with all
// that follows from it, and then overcurrent turns channels off. Words that are lent make no difference to these, so
// none are asked for.
fn settle(b: Board, rail: i16, named: u32, limits: Limits) -> Settled
    ensures { result ≡ settled_in (tripped_of named (changed_of rail limits (risen_of [] b))) }
{
    let older = b.phase.older();
    let before = older.mode();
    let stepped = older.step(rail, limits);
    let phase = stepped.kept();
    let after = phase.mode();
    let risen = watchdog::risen(b.timer);
    let timer = change::timer_after(before, after, risen);
    let channels = channels_after(before, after, b.profile, b.channels, named);
    let resets = change::resets_after(before, after, b.resets);
    Settled {
        phase,
        timer,
        channels,
        resets,
    }
}

// What steps 1 to 3 make of these parts where the tick happens; where it does not, they stay as they are.
// Kept: a refused tick could leave at once with an Err, but the board is large, and `tick` is fast where it leaves at
// one place; so whether the tick happens is asked part by part, here and in `untold`, `is_heard` and `watch`.
fn settle_where(happens: bool, b: Board, rail: i16, named: u32, limits: Limits) -> Settled
    ensures { result ≡ settled_in (cond happens (tripped_of named (changed_of rail limits (risen_of [] b))) b) }
{
    if happens {
        return settle(b, rail, named, limits);
    }
    Settled {
        phase: b.phase,
        timer: b.timer,
        channels: b.channels,
        resets: b.resets,
    }
}

// Words that came are raw from then on, and new.
fn brought(words: &[u16]) -> Measured
    ensures { result ≡ newly_measured words.now }
{
    Measured {
        words: readings::measured(words),
        fresh: Fresh {
            raw: true,
            engineering: true,
        },
    }
}

// What a tick tells that looks at no transfer: that there was none, or that its words are refused.
// Kept: it and `unit::due_by` have one shape and nothing in common: what is told, and what the text line has to say.
fn untold(happens: bool) -> Outcome
    ensures { result ≡ cond happens NoTransfer WrongWordCount }
{
    if happens {
        Outcome::NoTransfer
    } else {
        Outcome::WrongWordCount
    }
}

// Whether a transfer is looked at: one that is there, in a tick that happens.
// Kept: `happens` says of the tick that it is not refused, here and in `watch`; no value stands beside it.
fn is_heard(happens: bool, transfer: Option<&[u8]>) -> bool
    ensures { result ≡ (happens && is_sent transfer.entry) }
{
    happens && transfer.is_some()
}

// What the watchdog does at the end of a tick that happens; in one that does not, it does nothing.
fn watch(happens: bool, timer: u64, timeout: u64) -> Event
    ensures { result ≡ cond happens (watched_of timer timeout) NoEvent }
{
    if happens {
        watchdog::watched(timer, timeout)
    } else {
        Event::NoEvent
    }
}

// Whether the watchdog resets the board.
#[tactic(auto, unfolding(crate::specs::Parts::is_reset))]
fn is_reset(event: Event) -> bool
    ensures { result ≡ is_reset event }
{
    event == Event::WatchdogReset
}

// How many words a board of a profile has.
fn words_of(p: Profile) -> usize
    ensures { result ≡ (board_of p.kind).words }
{
    kinds::word_count(p.kind)
}

// Whether a tick of a board with that number of words may bring so many.
#[tactic(auto, unfolding(crate::specs::Tick::allowed_count))]
fn is_allowed(number: usize, count: usize) -> bool
    ensures { result ≡ allowed_count number count }
{
    count == 0 || count == number
}

// One tick: the rail in millivolts, the channels that reported overcurrent, the words lent, and no transfer or one.
// Any number of words but 0 and the board's own is refused, and every part of the board stays as it was.
// Kept: a refused tick has no way out of its own, and the board is changed in place and leaves at one place only, since
// it is large, and the compiler copies it wherever two ways meet.
pub fn tick(
    mut b: Board,
    rail: i16,
    overcurrent: u32,
    words: &[u16],
    transfer: Option<&[u8]>,
) -> Ticked
    ensures value { result ≡ tick_of rail overcurrent words.now (is_sent transfer.entry) (bytes_sent transfer.entry) b }
    ensures number { told_number result.outcome ≡ tick_number rail overcurrent words.now (is_sent transfer.entry) (bytes_sent transfer.entry) b }
{
    let number = words_of(b.profile);
    let happens = is_allowed(number, words.len());
    let limits = b.memory.limits();
    let settled = settle_where(happens, b, rail, overcurrent, limits);
    b.phase = settled.phase;
    b.timer = settled.timer;
    b.channels = settled.channels;
    b.resets = settled.resets;
    if words.len() == number {
        b.measured = brought(words);
    }
    let mut outcome = untold(happens);
    let mut replied = false;
    if is_heard(happens, transfer) {
        let c = commands::commanded(b, rail, limits, transfer);
        b = c.board;
        outcome = c.outcome;
        replied = c.replied;
    }
    let timeout = watchdog::seconds_in_ticks(b.memory.timeout());
    let event = watch(happens, b.timer, timeout);
    if is_reset(event) {
        b = state::watchdog_reset(b);
        replied = false;
    }
    Ticked {
        board: b,
        outcome,
        event,
        replied,
    }
}
