// The fields of each kind of line: numbers at fixed places with one space between them.
ghost use Rattle.std.specs.Prelude.{◌≡◌};
ghost use Rattle.lines.specs.Tails.{string_length, sent_by};
ghost use Rattle.lines.specs.Lines.{separated, limited, size_of, profile_of, start_from, stored_in, lend_in, tick_in, receive_in};

use crate::tails::{Tail, sent_by, string_length};
use crate::{Asked, Named, Start};
use kinds::Kind;
use script::reading::{is_at, number};
use wire::Form;

// Whether spaces stand at three places.
#[tactic(auto, unfolding(crate::specs::Lines::separated))]
pub fn separated(line: &[u8], first: usize, second: usize, third: usize) -> bool
    ensures { result ≡ separated first second third line.now }
{
    is_at(line, first, b' ') && is_at(line, second, b' ') && is_at(line, third, b' ')
}

// A number up to a limit.
pub fn limited(field: Option<u32>, most: u32) -> Option<u32>
    ensures { result ≡ limited most field }
{
    field.filter(|n| *n <= most)
}

// The number of four digits behind the letter, where it is at most so much.
#[tactic(auto, unfolding(crate::specs::Lines::size_of))]
pub fn size(line: &[u8], most: u32) -> Option<u32>
    ensures { result ≡ size_of most line.now }
{
    if !is_at(line, 1, b' ') {
        return None;
    }
    limited(number(line, 2, 4), most)
}

// The profile of a line that starts a board of a kind in a form.
#[tactic(auto, unfolding(crate::specs::Lines::profile_of))]
pub fn profile_of(kind: Kind, form: Form, line: &[u8]) -> Option<Named>
    ensures { result ≡ profile_of kind form line.now }
{
    if !separated(line, 1, 4, 13) {
        return None;
    }
    let bid = (number(line, 2, 2)? % 256) as u8;
    let fitted = number(line, 5, 8)?;
    let forced = number(line, 14, 8)?;
    Some(Named {
        bid,
        fitted,
        forced,
        kind,
        form,
    })
}

// A start with nothing stored.
pub fn start(board: Option<Named>) -> Option<Asked>
    ensures { result ≡ start_from board }
{
    Some(Asked::Start(Start {
        board: board?,
        stored: None,
    }))
}

// A start with stored settings: behind the fields of a start the save count, and 268 bytes.
pub fn stored_start(board: Option<Named>, behind: &[u8], end: Tail) -> Option<Asked>
    ensures { result ≡ stored_in board behind.now (string_length end) }
{
    if string_length(end)? != 268 || !separated(behind, 0, 5, 5) {
        return None;
    }
    let board = board?;
    let save_count = (number(behind, 1, 4)? % 65536) as u16;
    Some(Asked::Start(Start {
        board,
        stored: Some(save_count),
    }))
}

// At most 512 words for the next tick: as many as the line says, two bytes each.
// Kept: the line and its tail are read by the letter; a struct of the two would be taken apart at once.
#[tactic(auto, unfolding(crate::specs::Lines::lend_in))]
pub fn lend(line: &[u8], end: Tail) -> Option<Asked>
    ensures { result ≡ lend_in line.now (string_length end) }
{
    if !is_at(line, 6, b' ') {
        return None;
    }
    let count = size(line, 512)? as usize;
    if string_length(end)? != 2 * count {
        return None;
    }
    Some(Asked::Lend { count })
}

// A tick: the rail's pattern, the overcurrent set, and the command.
#[tactic(auto, unfolding(crate::specs::Lines::tick_in))]
pub fn tick(line: &[u8], end: Tail) -> Option<Asked>
    ensures { result ≡ tick_in line.now (sent_by end) }
{
    if !separated(line, 1, 6, 15) {
        return None;
    }
    let rail = (number(line, 2, 4)? % 65536) as u16;
    let overcurrent = number(line, 7, 8)?;
    let transfer = sent_by(end)?;
    Some(Asked::Tick {
        rail,
        overcurrent,
        transfer,
    })
}

// A read of the text line: at most 600 received bytes, with a scratch buffer of at most 512 bytes.
#[tactic(auto, unfolding(crate::specs::Lines::receive_in))]
pub fn receive(line: &[u8], end: Tail) -> Option<Asked>
    ensures { result ≡ receive_in line.now (string_length end) }
{
    if !is_at(line, 6, b' ') {
        return None;
    }
    let room = size(line, 512)? as usize;
    let count = string_length(end)?;
    if 600 < count {
        return None;
    }
    Some(Asked::Receive { room, count })
}
