// Bytes as text: pairs of hex digits, read in either case and written in capitals.
#![tactic(auto)]

ghost use Rattle.std.specs.Prelude.{◌≡◌, cond, is_some, ◌&&◌, ◌+◌, ◌*◌, ◌/◌, ◌%◌, ◌^◌, ◌<◌, ◌≤◌, length};
ghost use Rattle.std.proofs.lemmas.List.Edits.{sets};
ghost use Rattle.hexadecimal.specs.Hex.{digit_of, pair_of, payload_of, read_of, held_after, laid, capital_of, digits_of, text_of, written_of, four_pairs, word_of, word_text};
ghost use Rattle.hexadecimal.specs.Passes.{form_of, worth, values};
ghost use Rattle.hexadecimal.specs.Answers.{read_number, write_number, word_number, short_number, payload_number, is_eight_digits};

// What one digit is worth, of either case.
#[tactic(auto, unfolding(crate::specs::Hex::between))]
pub fn digit(x: u8) -> Option<u8>
    ensures is { result ≡ digit_of x }
    ensures small { worth result < 16 }
{
    match x {
        b'0'..=b'9' => Some(x - 48),
        b'A'..=b'F' => Some(x - 55),
        b'a'..=b'f' => Some(x - 87),
        _ => None,
    }
}

// The byte that a pair of digits spells, the upper digit first.
// Kept: two digits are two bytes of a text; nothing else is made of both.
#[tactic(auto, unfolding(crate::specs::Hex::pair_of))]
pub fn pair(a: u8, b: u8) -> Option<u8>
    ensures { result ≡ pair_of a b }
{
    let upper = digit(a)?;
    let lower = digit(b)?;
    Some(upper * 16 + lower)
}

// The byte that a pair spells, and 0 where one of its digits is bad.
fn value(a: u8, b: u8) -> u8
    ensures { result ≡ worth (pair_of a b) }
{
    pair(a, b).unwrap_or(0)
}

// How many pairs a text has, where it is of the form. This first pass touches no buffer, so that a refusal leaves every
// buffer as it was.
// Kept: a loop, since it takes the text apart by patterns; it counts the pairs, and no place.
fn count(text: &[u8]) -> Option<usize>
    ensures { result ≡ form_of 0 (payload_of text.now) }
{
    let mut pairs = 0;
    let mut rest = text;
    loop {
        let [a, b, behind @ ..] = rest else {
            return None;
        };
        pair(*a, *b)?;
        pairs += 1;
        let last = behind.len() == 0;
        if last {
            return Some(pairs);
        }
        let [b' ', more @ ..] = behind else {
            return None;
        };
        rest = more;
    }
}

// The second pass: what the pairs of a text are worth, into the front of a buffer that has the room.
fn fill(text: &[u8], out: &mut [u8])
    requires { length (values text.now) ≤ length out.old }
    ensures { out.new ≡ sets out.old 0 (values text.now) }
{
    for k in 0..(text.len() + 1) / 3 {
        out[k] = value(text[3 * k], text[3 * k + 1]);
    }
}

// Why no byte of a payload was read: it has another form, or the buffer cannot hold its bytes.
#[derive(Clone, Copy)]
pub enum PayloadRefusal {
    NotOfForm,
    TooShort,
}

// The bytes that a payload spells, into the front of a lent buffer, and how many they are. Where a payload is refused,
// the buffer keeps what it held.
#[tactic(auto, using(crate::proofs::Numbers::payload_number_lem, crate::proofs::Reading::known_pairs, crate::proofs::Reading::known_not))]
pub fn read(text: &[u8], out: &mut [u8]) -> Result<usize, PayloadRefusal>
    ensures answer { result ≡ read_of (payload_of text.now) (length out.old) }
    ensures held { out.new ≡ held_after (payload_of text.now) out.old }
    ensures number { read_number result ≡ payload_number text.now (length out.old) }
{
    let n = count(text).ok_or(PayloadRefusal::NotOfForm)?;
    if out.len() < n {
        return Err(PayloadRefusal::TooShort);
    }
    fill(text, out);
    Ok(n)
}

// The capital digit of a number below 16.
pub fn capital(v: u8) -> u8
    requires { v < 16 }
    ensures { result ≡ capital_of v }
{
    if v < 10 { v + 48 } else { v + 55 }
}

// A byte's two capital digits, at a place of a buffer.
fn put(out: &mut [u8], at: usize, b: u8)
    requires { at + 2 ≤ length out.old }
    ensures { out.new ≡ sets out.old at (digits_of b) }
{
    out[at] = capital(b / 16);
    out[at + 1] = capital(b % 16);
}

// Why nothing was written: the buffer has no room for the characters.
#[derive(Clone, Copy)]
pub enum WriteRefusal {
    NoRoom,
}

// The bytes as pairs of capital digits with one space between, into the front of a lent buffer, and how many characters
// they are. A buffer that is too short keeps what it held.
pub fn write(bytes: &[u8], out: &mut [u8]) -> Result<usize, WriteRefusal>
    ensures answer { result ≡ written_of (text_of bytes.now) (length out.old) }
    ensures held { out.new ≡ laid (text_of bytes.now) out.old }
    ensures number { write_number result ≡ short_number (length (text_of bytes.now)) (length out.old) }
{
    let n = bytes.len();
    if n == 0 {
        return Ok(0);
    }
    if (out.len() + 1) / 3 < n {
        return Err(WriteRefusal::NoRoom);
    }
    put(out, 0, bytes[0]);
    for i in 1..n {
        out[3 * i - 1] = 32;
        put(out, 3 * i, bytes[i]);
    }
    Ok(3 * n - 1)
}

// A number of four bytes, the uppermost first.
fn join(a: u8, b: u8, c: u8, d: u8) -> u32
    ensures { result ≡ ((a * 256 + b) * 256 + c) * 256 + d }
{
    ((a as u32 * 256 + b as u32) * 256 + c as u32) * 256 + d as u32
}

// The number of four pairs, the uppermost first, where none of them is bad.
fn four_pairs(
    upper: Option<u8>,
    second: Option<u8>,
    third: Option<u8>,
    lowest: Option<u8>,
) -> Option<u32>
    ensures value { result ≡ four_pairs upper second third lowest }
    ensures number { word_number result ≡ cond (is_some upper && is_some second && is_some third && is_some lowest) 0 14 }
{
    Some(join(upper?, second?, third?, lowest?))
}

// The 32-bit number that a text of exactly eight hex digits spells; any other text is not one.
#[tactic(auto, using(crate::proofs::Numbers::word_number_lem), unfolding(crate::specs::Hex::word_of))]
pub fn read_word(text: &[u8]) -> Option<u32>
    ensures value { result ≡ word_of text.now }
    ensures number { word_number result ≡ cond (is_eight_digits text.now) 0 14 }
{
    if text.len() != 8 {
        return None;
    }
    let upper = pair(text[0], text[1]);
    let second = pair(text[2], text[3]);
    let third = pair(text[4], text[5]);
    let lowest = pair(text[6], text[7]);
    four_pairs(upper, second, third, lowest)
}

// The bit of a number at a place, 0 for the lowest.
// argued: called with places below 32
fn bit(x: u32, place: u32) -> u8
    requires { place < 32 }
    ensures { result ≡ x / 2 ^ place % 2 }
{
    ((x >> place) % 2) as u8
}

// What the bits at four places are worth as one digit, the uppermost first.
// argued: called with places below 32
fn four(x: u32, eight: u32, four: u32, two: u32, one: u32) -> u8
    requires { (eight < 32) × (four < 32) × (two < 32) × (one < 32) }
    ensures { result ≡ 8 * (x / 2 ^ eight % 2) + 4 * (x / 2 ^ four % 2) + 2 * (x / 2 ^ two % 2) + x / 2 ^ one % 2 }
{
    8 * bit(x, eight) + 4 * bit(x, four) + 2 * bit(x, two) + bit(x, one)
}

// A 32-bit number as eight capital digits, the uppermost first: of a set, channel 31 stands first and channel c is bit
// c.
pub fn write_word(x: u32) -> [u8; 8]
    ensures { result ≡ word_text x }
{
    [
        capital(four(x, 31, 30, 29, 28)),
        capital(four(x, 27, 26, 25, 24)),
        capital(four(x, 23, 22, 21, 20)),
        capital(four(x, 19, 18, 17, 16)),
        capital(four(x, 15, 14, 13, 12)),
        capital(four(x, 11, 10, 9, 8)),
        capital(four(x, 7, 6, 5, 4)),
        capital(four(x, 3, 2, 1, 0)),
    ]
}
