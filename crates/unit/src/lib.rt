// What a bench calls, in one place. Every call takes a machine by value, and hands it back where it changes.
#![tactic(auto)]

ghost use Rattle.std.specs.Prelude.{◌≡◌, cond, length};
ghost use Rattle.wire.specs.Replies.{found};
ghost use Rattle.hexadecimal.specs.Hex.{laid};
ghost use Rattle.hexadecimal.specs.Answers.{short_number};
ghost use Rattle.frames.specs.Frames.{frame_of};
ghost use Rattle.reading.specs.Lines.{line_held, payload_in};
ghost use Rattle.reading.specs.Answers.{line_number, line_tells, place_behind, reading_number};
ghost use Rattle.framing.specs.Framing.{framed_of};
ghost use Rattle.framing.specs.Answers.{framed_number};
ghost use Rattle.state.specs.Start.{keeps_the_rules, start_number};
ghost use Rattle.answers.specs.Answers.{told_number};
ghost use Rattle.asking.specs.Sent.{is_sent, bytes_sent};
ghost use Rattle.board.specs.Tick.{tick_number};
ghost use Rattle.unit.specs.Machine.{no_machine, begun_of, due_by, tells_it_happened, due_after, told_of, after_line, heard_of, due_of};

use answers::Outcome;
use framing::{Due, FrameRefusal};
use memory::Stored;
use reading::{Line, LineRefusal};
use state::{Board, Profile, StartRefusal};
use watchdog::Event;

// A board, and what its text line has to say.
#[derive(Clone, Copy)]
pub struct Machine {
    pub board: Board,
    pub due: Due,
}

// The machine after a start, and the answer.
#[derive(Clone, Copy)]
pub struct Begun {
    pub machine: Machine,
    pub answer: Result<(), StartRefusal>,
}

// The machine after a tick, what the tick tells of its transfer, what the watchdog did, and whether the tick made a
// reply that is still there. After a tick that was refused none was made in it, and the machine still has to say what
// it had to say before.
// Kept: `replied` has no value beside it; the reply waits in the machine's board.
#[derive(Clone, Copy)]
pub struct Told {
    pub machine: Machine,
    pub outcome: Outcome,
    pub event: Event,
    pub replied: bool,
}

// The machine after a read of its text line, and what the read answers.
#[derive(Clone, Copy)]
pub struct Heard {
    pub machine: Machine,
    pub line: Result<Line, LineRefusal>,
}

// What stands where no machine was started yet, and is there only to be started: as a machine it has no channel and the
// BID 0, which no accepted profile has.
pub fn unstarted() -> Machine
    ensures { result ≡ no_machine }
{
    Machine {
        board: state::unstarted(),
        due: Due::Nothing,
    }
}

// Starts a machine from a profile and what is stored; where the profile breaks a rule, the machine that was there
// stays.
pub fn start(there: Machine, profile: Profile, store: Option<Stored>) -> Begun
    ensures value { result ≡ begun_of there profile store }
    ensures number { start_number result.answer ≡ cond (keeps_the_rules profile store) 0 8 }
{
    let s = state::start(there.board, profile, store);
    match s.answer {
        Ok(()) => Begun {
            machine: Machine {
                board: s.board,
                due: Due::Nothing,
            },
            answer: Ok(()),
        },
        Err(refusal) => Begun {
            machine: there,
            answer: Err(refusal),
        },
    }
}

// What the text line has to say after a tick that happened.
fn due_by(replied: bool) -> Due
    ensures { result ≡ due_by replied }
{
    if replied { Due::Reply } else { Due::Nothing }
}

// Whether a tick that tells this happened.
fn happened(outcome: Outcome) -> bool
    ensures { result ≡ tells_it_happened outcome }
{
    !matches!(outcome, Outcome::WrongWordCount)
}

// What the text line has to say after a tick: the reply made in it that still waits, and else nothing. A tick that did
// not happen leaves what was due.
// Kept: a test, and not a case for each outcome, since with those the compiler copies the board once more.
fn due_after(outcome: Outcome, replied: bool, due: Due) -> Due
    ensures { result ≡ due_after outcome replied due }
{
    if happened(outcome) {
        due_by(replied)
    } else {
        due
    }
}

// One tick: the rail in millivolts, the channels that reported overcurrent, the words lent, and no transfer or one.
// Words that are neither none nor as many as the board has are refused, and the machine stays as it was.
pub fn tick(m: Machine, rail: i16, overcurrent: u32, words: &[u16], transfer: Option<&[u8]>) -> Told
    ensures value { result ≡ told_of rail overcurrent words.now (is_sent transfer.entry) (bytes_sent transfer.entry) m }
    ensures number { told_number result.outcome ≡ tick_number rail overcurrent words.now (is_sent transfer.entry) (bytes_sent transfer.entry) m.board }
{
    let t = board::tick(m.board, rail, overcurrent, words, transfer);
    let board = t.board;
    let outcome = t.outcome;
    let event = t.event;
    let before = m.due;
    let due = due_after(outcome, t.replied, before);
    Told {
        machine: Machine { board, due },
        outcome,
        event,
        replied: t.replied,
    }
}

// A bus read: the lent buffer then holds the waiting reply from its first byte and after it 0xFF.
pub fn bus_read(m: Machine, out: &mut [u8])
    ensures { out.new ≡ found m.board.reply (length out.old) }
{
    state::read(m.board, out);
}

// The machine after its text line was read: a switch takes at once, and its echo is due.
fn after_line(m: Machine, line: Result<Line, LineRefusal>) -> Machine
    ensures { result ≡ after_line line m }
{
    match line {
        Ok(Line::Switch { form, behind: _ }) => Machine {
            board: state::with_form(m.board, form),
            due: Due::Echo(form),
        },
        Ok(
            Line::Command {
                start: _,
                end: _,
                behind: _,
            },
        ) => m,
        Err(_) => m,
    }
}

// Reads what was received on the text line, by the form in force: a command's payload, a switch of the form, or why
// there is neither. The scratch buffer is written only where a payload in ASCII form is handed on.
pub fn read_line(m: Machine, received: &[u8], scratch: &mut [u8]) -> Heard
    ensures answer { result ≡ heard_of received.now (length scratch.old) m }
    ensures held { scratch.new ≡ line_held m.board.form received.now scratch.old }
    ensures number { line_number result.line ≡ reading_number m.board.form received.now (length scratch.old) }
    ensures place { line_tells result.line ≡ place_behind (frame_of received.now) }
{
    let b = m.board;
    let form = b.form;
    let line = reading::read(form, received, scratch);
    Heard {
        machine: after_line(m, line),
        line,
    }
}

// The payload that a read handed on, by the form of the machine that the read left: in raw form a part of what was
// received, in ASCII form a part of the scratch buffer. Ends that do not fit are cut.
pub fn payload<'a>(
    m: Machine,
    received: &'a [u8],
    scratch: &'a [u8],
    start: usize,
    end: usize,
) -> &'a [u8]
    ensures { result.now ≡ payload_in m.board.form received.now scratch.now start end }
{
    let b = m.board;
    let form = b.form;
    reading::payload(form, received, scratch, start, end)
}

// Frames what the text line has to say into the front of a lent buffer: the reply of the latest tick, the echo of a
// switch since then, or nothing. Where the buffer is too short it keeps what it held. Nothing is used up: the same call
// says the same again.
pub fn frame(m: Machine, out: &mut [u8]) -> Result<usize, FrameRefusal>
    ensures answer { result ≡ framed_of (due_of m) (length out.old) }
    ensures held { out.new ≡ laid (due_of m) out.old }
    ensures number { framed_number result ≡ short_number (length (due_of m)) (length out.old) }
{
    let due = m.due;
    let b = m.board;
    let form = b.form;
    let reply = b.reply;
    let bytes = reply.bytes;
    framing::frame(due, form, wire::first(&bytes, reply.len), out)
}
