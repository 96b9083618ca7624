// The fields of a script line: hexadecimal numbers of a given width, and byte strings.
ghost use Rattle.std.specs.Prelude.{◌≡◌, eqb, length, get_or, take, drop};
ghost use Rattle.std.proofs.lemmas.List.Edits.{sets};
ghost use Rattle.script.specs.Reading.{line_of, field_of, count_of, sound, words_of};

// The line that was collected, as far as the buffer was filled; one that was too long counts as empty, which is bad
// too.
pub fn line_of(line: &[u8], filled: Option<usize>) -> &[u8]
    ensures { result.now ≡ line_of line.now filled }
{
    wire::first(line, filled.unwrap_or(0))
}

// Whether a character stands at a place.
pub fn is_at(line: &[u8], at: usize, c: u8) -> bool
    ensures { result ≡ eqb (get_or line.now at 0) c }
{
    wire::byte(line, at) == c
}

// The number of some digits that stands at a place; of more than eight digits the lowest eight count.
pub fn number(line: &[u8], at: usize, digits: usize) -> Option<u32>
    ensures { result ≡ field_of 0 digits (drop at line.now) }
{
    let text = wire::rest(line, at);
    let mut n: u32 = 0;
    for i in 0..digits {
        let d = hexadecimal::digit(wire::byte(text, i))?;
        n = n % 268435456 * 16 + d as u32;
    }
    Some(n)
}

// The bytes of a text, pairs of digits with nothing between, into the front of a buffer.
pub fn pairs(text: &[u8], out: &mut [u8]) -> Option<usize>
    ensures answer { result ≡ count_of 0 (length out.old) text.now }
    ensures held { out.new ≡ sets out.old 0 (sound text.now) }
{
    let n = text.len() / 2;
    for k in 0..n {
        let b = hexadecimal::pair(text[2 * k], text[2 * k + 1])?;
        if out.len() <= k {
            return None;
        }
        out[k] = b;
    }
    if 2 * n < text.len() {
        return None;
    }
    Some(n)
}

// Words from pairs of bytes, the upper first.
pub fn lent_words(bytes: &[u8]) -> [u16; 512]
    ensures { result ≡ words_of 512 bytes.now }
{
    let mut ws = [0u16; 512];
    for i in 0..512 {
        ws[i] = wire::byte(bytes, 2 * i) as u16 * 256 + wire::byte(bytes, 2 * i + 1) as u16;
    }
    ws
}
