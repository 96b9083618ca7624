// Step 4 of a tick: the command. What each transfer is answered, what it alters, and the reply that then waits. A board
// obeys in place, part by part.
#![tactic(auto)]

ghost use Rattle.std.specs.Prelude.{◌≡◌};
ghost use Rattle.answers.specs.Answers.{told_number, silent_of};
ghost use Rattle.asking.specs.Sent.{is_sent, bytes_sent};
ghost use Rattle.effects.specs.Parts.{any_code, obeyed_in};
ghost use Rattle.commands.specs.Step.{commanded_of, number_of};
ghost use Rattle.commands.specs.Parts.{timer_answered, refused_with, asked_in, layout_asked, memory_change_asked};

use answering::{is_altering, is_restart, memory_after, reply_to};
use answers::{Answer, Commanded, Outcome, start_of};
use asking::{Asked, asked_of};
use command::Layout;
use effects::{MemoryChange, Obeyed, layout_of, memory_change_of, only_fed, run};
use modes::Limits;
use state::Board;

// The timer after a refusal: fed by 4 to 7, where the transfer was meant for this board.
fn timer_answered(answer: Answer, timer: u64) -> u64
    ensures { result ≡ timer_answered answer timer }
{
    match answer {
        Answer::Accepted | Answer::FewerThanFourBytes | Answer::InStartup | Answer::NotThisBoard =>
            timer,
        Answer::CodeNotListed | Answer::TooShort | Answer::NotAvailable | Answer::Wrong => 0,
    }
}

// After a refusal nothing has changed but the timer.
fn refused(b: Board, answer: Answer) -> Obeyed
    ensures { result ≡ obeyed_in (refused_with answer any_code b) }
{
    Obeyed {
        timer: timer_answered(answer, b.timer),
        ..only_fed(b, answer)
    }
}

// Where no reply is made nothing has changed.
// Kept: the parts come out of a board into parts of another type, so that no struct update serves.
fn silent(b: Board, outcome: Outcome) -> Obeyed
    ensures { result ≡ obeyed_in (silent_of outcome b) }
{
    Obeyed {
        phase: b.phase.kept(),
        timer: b.timer,
        channels: b.channels,
        outcome,
        fresh: b.measured.fresh,
        replied: false,
    }
}

// What a transfer leaves of mode, timer, channels and words, and what is told of it.
// Kept: the rail and the limits stand apart, as the rules compare the one with the other.
fn obeyed(b: Board, rail: i16, limits: Limits, asked: Asked) -> Obeyed
    ensures { result ≡ obeyed_in (asked_in rail limits any_code asked b) }
{
    match asked {
        Asked::Silence(outcome) => silent(b, outcome),
        Asked::Refusal(answer) => refused(b, answer),
        Asked::Run(c) => run(b, rail, limits, c),
    }
}

// How the reply to what was asked is laid out.
// Kept: it and `memory_change` ask two things of a command, each by its own function of `effects`.
fn layout(asked: Asked) -> Layout
    ensures { result ≡ layout_asked asked }
{
    match asked {
        Asked::Silence(_) | Asked::Refusal(_) => Layout::Short,
        Asked::Run(c) => layout_of(c),
    }
}

// What becomes of the memory by what was asked.
fn memory_change(asked: Asked) -> MemoryChange
    ensures { result ≡ memory_change_asked asked }
{
    match asked {
        Asked::Silence(_) | Asked::Refusal(_) => MemoryChange::AsBefore,
        Asked::Run(c) => memory_change_of(c),
    }
}

// The bytes that were sent; where none was sent there are none.
fn bytes_sent<'a>(transfer: Option<&'a [u8]>) -> &'a [u8]
    ensures { result.now ≡ bytes_sent transfer.entry }
{
    match transfer {
        Some(bytes) => bytes,
        None => &[],
    }
}

// Step 4: no transfer, or one of any length and content.
// What is put into the board is found from the board as it came, but for the reply, which a changed memory shows in; so
// the board is handed to nobody who changes it.
pub fn commanded(mut b: Board, rail: i16, limits: Limits, transfer: Option<&[u8]>) -> Commanded
    ensures value { result ≡ commanded_of rail limits (is_sent transfer.entry) (bytes_sent transfer.entry) b }
    ensures number { told_number result.outcome ≡ number_of rail limits (is_sent transfer.entry) (bytes_sent transfer.entry) b }
{
    let kind = b.profile.kind;
    let asked = asked_of(kind, b.profile.bid, b.phase.mode(), transfer);
    let told = obeyed(b, rail, limits, asked);
    let change = memory_change(asked);
    let outcome = told.outcome;
    let replied = told.replied;
    if is_altering(change) {
        b.memory = memory_after(kind, b.memory, change);
    }
    if replied {
        b.reply = reply_to(b, start_of(bytes_sent(transfer)), outcome, layout(asked));
    }
    b.phase = told.phase;
    b.timer = told.timer;
    b.channels = told.channels;
    b.measured.fresh = told.fresh;
    if is_restart(change) {
        b = state::command_reset(b);
    }
    Commanded {
        board: b,
        outcome,
        replied,
    }
}
