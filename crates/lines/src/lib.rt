// What a line of a replay script asks for: its letter, the fields of fixed width behind it, and its tail. No board is
// looked at here.
#![tactic(auto)]

mod boards;
mod fields;
mod tails;

ghost use Rattle.std.specs.Prelude.{◌≡◌, length};
ghost use Rattle.std.proofs.lemmas.List.Edits.{sets};
ghost use Rattle.lines.specs.Lines.{size_of, read_from, frame_from, bare, line_by, width_of, asked_of, spelt_by};

use boards::board_in;
use fields::{lend, profile_of, receive, size, start, stored_start, tick};
use kinds::Kind;
use tails::{Tail, tail_of};
use wire::Form;

// The board that a line names: its BID, fitted set and forced set, its kind, and the form in which it starts.
#[derive(Clone, Copy)]
pub struct Named {
    pub bid: u8,
    pub fitted: u32,
    pub forced: u32,
    pub kind: Kind,
    pub form: Form,
}

// What a start is given: the board, and the save count of the stored settings, where settings are stored.
#[derive(Clone, Copy)]
pub struct Start {
    pub board: Named,
    pub stored: Option<u16>,
}

// What a line asks for. The bytes of its byte string are at the front of the buffer that it was read into, `count` of
// them, or as many as a tick's transfer has; those of a start are the stored settings.
#[derive(Clone, Copy)]
pub enum Asked {
    Start(Start),
    Lend {
        count: usize,
    },
    Tick {
        rail: u16,
        overcurrent: u32,
        transfer: Option<usize>,
    },
    Receive {
        room: usize,
        count: usize,
    },
    Look(Look),
}

// What a line asks for that changes nothing: a bus read, a framing, or the state.
// Kept: three things to look at, each with its own answer.
#[derive(Clone, Copy)]
pub enum Look {
    Read { count: usize },
    Frame { room: usize },
    Show,
}

// Where a line's tail begins: the fields before it are as wide as its letter says.
#[tactic(auto, unfolding(crate::specs::Lines::width_of))]
fn head(letter: u8) -> usize
    ensures { result ≡ width_of letter }
{
    match letter {
        b'B' => 22,
        b'P' => 28,
        b'W' => 7,
        b'T' => 16,
        b'R' => 6,
        b'L' => 7,
        b'F' => 6,
        b'S' => 1,
        b'Q' => 29,
        b'V' => 35,
        _ => 0,
    }
}

// A bus read of at most 512 bytes.
// Kept: apart from `frame`, since what the two differ in is all that they say.
fn read(line: &[u8]) -> Option<Asked>
    ensures { result ≡ read_from (size_of 512 line.now) }
{
    let count = size(line, 512)? as usize;
    Some(Asked::Look(Look::Read { count }))
}

// A framing into a buffer of at most 1,024 bytes.
fn frame(line: &[u8]) -> Option<Asked>
    ensures { result ≡ frame_from (size_of 1024 line.now) }
{
    let room = size(line, 1024)? as usize;
    Some(Asked::Look(Look::Frame { room }))
}

// A line that has no tail.
fn bare(asked: Option<Asked>, end: Tail) -> Option<Asked>
    ensures { result ≡ bare asked end }
{
    match end {
        Tail::Absent => asked,
        Tail::Dash | Tail::Dot | Tail::Bytes(_) => None,
    }
}

// A line of a letter with its tail.
#[tactic(auto, unfolding(crate::specs::Lines::line_by))]
fn by_letter(letter: u8, line: &[u8], end: Tail) -> Option<Asked>
    ensures { result ≡ line_by letter line.now end }
{
    match letter {
        b'B' => bare(start(profile_of(Kind::Distribution, Form::Raw, line)), end),
        b'P' => stored_start(
            profile_of(Kind::Distribution, Form::Raw, line),
            wire::rest(line, 22),
            end,
        ),
        b'W' => lend(line, end),
        b'T' => tick(line, end),
        b'R' => bare(read(line), end),
        b'L' => receive(line, end),
        b'F' => bare(frame(line), end),
        b'S' => bare(Some(Asked::Look(Look::Show)), end),
        b'Q' => bare(start(board_in(line)), end),
        b'V' => stored_start(board_in(line), wire::rest(line, 29), end),
        _ => None,
    }
}

// What a line asks for, where it is of a form; its byte string goes into the front of a lent buffer.
#[tactic(auto, unfolding(crate::specs::Lines::behind_fields, crate::specs::Lines::asked_of, crate::specs::Lines::spelt_by))]
pub fn asks(line: &[u8], held: &mut [u8]) -> Option<Asked>
    ensures answer { result ≡ asked_of (length held.old) line.now }
    ensures held { held.new ≡ sets held.old 0 (spelt_by line.now) }
{
    let letter = wire::byte(line, 0);
    let end = tail_of(wire::rest(line, head(letter)), held)?;
    by_letter(letter, line, end)
}
