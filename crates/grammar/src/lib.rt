// The parts of which a sheet is put together, each read at a place of a text. A place may be any: past the end nothing
// is read.
#![tactic(auto)]

ghost use Rattle.std.specs.Prelude.{slice_get, ◌≡◌, ◌<◌, ◌≤◌, length, IsSome, IfSome};
ghost use Rattle.grammar.specs.Grammar.{peek_at, text, up_to};
ghost use Rattle.grammar.specs.Numbers.{digit_at, number, signed, word};
ghost use Rattle.grammar.specs.Views.{peeked, counted, seen_next, seen, seen_line, Lies, answer_refusal, refusal_of};

// What was read at a place, and the place behind it.
#[derive(Clone, Copy)]
pub struct Found<T> {
    pub value: T,
    pub next: usize,
}

// The byte at a place, where it is not past the end.
// Kept: a text and a place in it are two parameters, as the parsers of the grammar take them: a session keeps the place
// and is lent the text anew at each step.
#[tactic(auto, unfolding(crate::specs::Grammar::peek_at))]
pub fn peek(s: &[u8], at: usize) -> Option<u8>
    ensures byte { result ≡ slice_get s.now at }
    ensures is { peeked result ≡ peek_at s.now at }
    ensures small { peeked result ≤ 256 }
    ensures inside { peeked result < 256 → at < length s.now }
{
    s.get(at).copied()
}

// These bytes at a place, one after the other: the place behind them.
pub fn literal(s: &[u8], at: usize, wanted: &[u8]) -> Option<usize>
    ensures is { seen_next result ≡ text wanted.now s.now at }
    ensures number { answer_refusal result ≡ refusal_of (text wanted.now s.now at) }
{
    if wire::rest(s, at).starts_with(wanted) {
        Some(at + wanted.len())
    } else {
        None
    }
}

// The first place from `at` on where a byte stands, so that what lies before it can be taken as a part.
pub fn find_byte(s: &[u8], at: usize, b: u8) -> Option<usize>
    ensures is { seen_line s.now at result ≡ up_to b s.now at }
    ensures lies { Lies result at (length s.now) }
    ensures number { answer_refusal result ≡ refusal_of (up_to b s.now at) }
{
    for i in at..s.len() {
        if s[i] == b {
            return Some(i);
        }
    }
    None
}

// What the decimal digit at a place is worth, where one stands.
#[tactic(auto, unfolding(crate::specs::Numbers::digit_at, hexadecimal::specs::Hex::between))]
fn decimal(s: &[u8], at: usize) -> Option<u64>
    ensures is { counted result ≡ digit_at s.now at }
    ensures small { IfSome result (λ d. d < 10) }
    ensures inside { IsSome result → at < length s.now }
{
    match peek(s, at)? {
        x @ b'0'..=b'9' => Some(u64::from(x - 48)),
        _ => None,
    }
}

// A decimal number of at most limit. Reading stops once the limit is passed, so that any count of digits may come and
// nothing overflows.
// Kept: reading ends where no digit stands, or past the limit; that is a `while let`, and no count of turns.
pub fn read_number(s: &[u8], at: usize, limit: u32) -> Option<Found<u32>>
    ensures is { seen result ≡ number limit s.now at }
    ensures number { answer_refusal result ≡ refusal_of (number limit s.now at) }
{
    let first = decimal(s, at)?;
    if first == 0 {
        return match decimal(s, at + 1) {
            None => Some(Found {
                value: 0,
                next: at + 1,
            }),
            Some(_) => None,
        };
    }
    let most = u64::from(limit);
    let mut value = 0;
    let mut next = at;
    while let Some(d) = decimal(s, next) {
        value = value * 10 + d;
        if most < value {
            return None;
        }
        next += 1;
    }
    Some(Found {
        value: value as u32,
        next,
    })
}

// A number from -32768 to 32767, with a - in front if it is below 0.
pub fn read_signed(s: &[u8], at: usize) -> Option<Found<i16>>
    ensures is { seen result ≡ signed s.now at }
    ensures number { answer_refusal result ≡ refusal_of (signed s.now at) }
{
    if peek(s, at) == Some(b'-') {
        let Found { value, next } = read_number(s, at + 1, 32768)?;
        if value == 0 {
            return None;
        }
        return Some(Found {
            value: (0 - value as i32) as i16,
            next,
        });
    }
    let Found { value, next } = read_number(s, at, 32767)?;
    Some(Found {
        value: value as i16,
        next,
    })
}

// Eight hex digits of either case, the uppermost first. Whether a ninth stands behind them is for the caller to ask.
pub fn read_word(s: &[u8], at: usize) -> Option<Found<u32>>
    ensures is { seen result ≡ word 8 0 s.now at }
    ensures number { answer_refusal result ≡ refusal_of (word 8 0 s.now at) }
{
    let value = hexadecimal::read_word(wire::first(wire::rest(s, at), 8))?;
    Some(Found {
        value,
        next: at + 8,
    })
}
