// The lines of a transcript and the line of a refused sheet, each put together on a page: the functions that print one
// answer how many characters they put into the lent buffer.
#![tactic(auto)]

ghost use Rattle.std.specs.Prelude.{◌≡◌, ◌∷◌, ◌<◌};
ghost use Rattle.hexadecimal.specs.Hex.{word_text, text_of};
ghost use Rattle.wire.specs.Replies.{shown};
ghost use Rattle.script.specs.Printing.{page, typed};
ghost use Rattle.transcript.specs.Transcript.{digit_for, decimal, made_text, ticks_text, tick_text, refusal_text};

use script::printing::Page;
use state::Board;
use wire::Reply;

// Why no session of a sheet is opened.
#[derive(Clone, Copy)]
pub enum SheetRefusal {
    ProfileBreaksARule,
    NotOfForm,
}

// The digit that a number has for a power of ten, where it reaches that far.
// argued: called with powers of ten
#[tactic(auto, unfolding(script::specs::Printing::typed))]
fn digit(line: &mut Page, n: u32, power: u32)
    requires { 0 < power }
    ensures same_reference { line.new.out.ghost_name ≡ line.old.out.ghost_name }
    ensures typed { page line.new.out.now line.new.at ≡ typed (page line.old.out.now line.old.at) (digit_for power n) }
{
    if power <= n {
        line.put((n / power % 10) as u8 + 48);
    }
}

// A number in decimal, without leading zeros.
fn decimal(line: &mut Page, n: u32)
    ensures same_reference { line.new.out.ghost_name ≡ line.old.out.ghost_name }
    ensures typed { page line.new.out.now line.new.at ≡ typed (page line.old.out.now line.old.at) (decimal n) }
{
    let mut power: u32 = 1000000000;
    for _ in 0..9u32 {
        digit(line, n, power);
        power /= 10;
    }
    line.put((n % 10) as u8 + 48);
}

// A space and a set of channels as eight digits.
#[tactic(auto, unfolding(script::specs::Printing::typed))]
fn set(line: &mut Page, channels: u32)
    ensures same_reference { line.new.out.ghost_name ≡ line.old.out.ghost_name }
    ensures typed { page line.new.out.now line.new.at ≡ typed (page line.old.out.now line.old.at) (32 ∷ word_text channels) }
{
    line.put(b' ');
    line.text(&hexadecimal::write_word(channels));
}

// The bytes that a reply shows, in ASCII form.
fn reply(line: &mut Page, r: Reply)
    ensures same_reference { line.new.out.ghost_name ≡ line.old.out.ghost_name }
    ensures typed { page line.new.out.now line.new.at ≡ typed (page line.old.out.now line.old.at) (text_of (shown r)) }
{
    let bytes = r.bytes;
    let len = r.len;
    let mut digits = [0u8; 1024];
    let n = hexadecimal::write(wire::first(&bytes, len), &mut digits).unwrap();
    line.text(wire::first(&digits, n));
}

// A space, and the reply made in a tick and still waiting, or `-`.
// Kept: `made_text` of the definitions takes the two, and the page of a tick is defined by it.
#[tactic(auto, unfolding(script::specs::Printing::typed, crate::specs::Transcript::made_text))]
fn made(line: &mut Page, replied: bool, r: Reply)
    ensures same_reference { line.new.out.ghost_name ≡ line.old.out.ghost_name }
    ensures typed { page line.new.out.now line.new.at ≡ typed (page line.old.out.now line.old.at) (made_text replied r) }
{
    line.put(b' ');
    if replied {
        reply(line, r);
    } else {
        line.put(b'-');
    }
}

// The first line of a transcript.
#[tactic(auto, using(script::proofs::Turns::typed_append), unfolding(script::specs::Printing::typed, crate::specs::Transcript::ticks_text))]
pub fn ticks_line(out: &mut [u8], ticks: u32) -> usize
    ensures { page out.new result ≡ typed (page out.old 0) (ticks_text ticks) }
{
    let mut line = Page::on(out);
    line.text(b"ticks ");
    decimal(&mut line, ticks);
    line.put(b'\n');
    line.at
}

// The line of a tick, with its number.
#[tactic(auto, using(script::proofs::Turns::typed_append), unfolding(script::specs::Printing::typed, crate::specs::Transcript::tick_text))]
pub fn tick_line(out: &mut [u8], number: u32, replied: bool, b: Board) -> usize
    ensures { page out.new result ≡ typed (page out.old 0) (tick_text number replied b) }
{
    let phase = b.phase;
    let c = b.channels;
    let mut line = Page::on(out);
    decimal(&mut line, number);
    line.put(b' ');
    line.put(naming::mode_letter(phase.mode()));
    set(&mut line, c.on());
    set(&mut line, c.latched());
    made(&mut line, replied, b.reply);
    line.put(b'\n');
    line.at
}

// Prints the line of a refused sheet into the front of the lent buffer, and nothing for a session that runs. A buffer
// that is too short is filled with its front.
#[tactic(auto, unfolding(script::specs::Printing::typed))]
pub fn refusal(answer: Result<(), SheetRefusal>, out: &mut [u8]) -> usize
    ensures { page out.new result ≡ typed (page out.old 0) (refusal_text answer) }
{
    let mut line = Page::on(out);
    match answer {
        Ok(()) => {}
        Err(SheetRefusal::ProfileBreaksARule) => line.text(b"refused 8\n"),
        Err(SheetRefusal::NotOfForm) => line.text(b"refused 14\n"),
    }
    line.at
}
