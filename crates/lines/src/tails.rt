// The tail of a line: a byte string, one of the two signs that stand for none, or nothing at all.
ghost use Rattle.std.specs.Prelude.{◌≡◌, length};
ghost use Rattle.std.proofs.lemmas.List.Edits.{sets};
ghost use Rattle.script.specs.Reading.{sound};
ghost use Rattle.lines.specs.Tails.{sign_of, tail_of, string_length, sent_by};

use script::reading::pairs;

// What stands behind a line's fields.
// Kept: four tails that a line can have; which of them it may have goes by its letter.
#[derive(Clone, Copy)]
pub enum Tail {
    Absent,
    Dash,
    Dot,
    Bytes(usize),
}

// A tail of one character.
fn sign(c: u8) -> Option<Tail>
    ensures { result ≡ sign_of c }
{
    match c {
        b'-' => Some(Tail::Dash),
        b'.' => Some(Tail::Dot),
        _ => None,
    }
}

// The tail of a line; the bytes that it spells go into the front of a buffer.
#[tactic(auto, unfolding(crate::specs::Tails::tail_of))]
pub fn tail_of(text: &[u8], held: &mut [u8]) -> Option<Tail>
    ensures answer { result ≡ tail_of (length held.old) text.now }
    ensures held { held.new ≡ sets held.old 0 (sound text.now) }
{
    let spelt = pairs(text, held);
    match text {
        [] => Some(Tail::Absent),
        [c] => sign(*c),
        _ => spelt.map(Tail::Bytes),
    }
}

// The length of a byte string; `-` is one of no bytes.
pub fn string_length(end: Tail) -> Option<usize>
    ensures { result ≡ string_length end }
{
    match end {
        Tail::Dash => Some(0),
        Tail::Bytes(n) => Some(n),
        Tail::Absent | Tail::Dot => None,
    }
}

// The transfer that a tail is, at most 300 bytes: `-` is none, `.` one of no bytes.
pub fn sent_by(end: Tail) -> Option<Option<usize>>
    ensures { result ≡ sent_by end }
{
    match end {
        Tail::Dash => Some(None),
        Tail::Dot => Some(Some(0)),
        Tail::Bytes(n) if n <= 300 => Some(Some(n)),
        Tail::Absent | Tail::Bytes(_) => None,
    }
}
