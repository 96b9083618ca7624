// The long lines of a replay: what a tick prints, and the state.
#![tactic(auto)]

ghost use Rattle.std.specs.Prelude.{◌≡◌, ◌∷◌, take};
ghost use Rattle.readings.specs.Readings.{raw_words};
ghost use Rattle.script.specs.Printing.{page, typed, row};
ghost use Rattle.showing.specs.Showing.{letter_of, reply_text, made_text, front_text, tick_line, ticked_line, resets_text, stored_text, memory_text, state_line};

use answers::Outcome;
use channels::Channels;
use memory::{Memory, Stored};
use modes::ModeAge;
use script::printing::Page;
use state::{Board, Measured, Resets};
use watchdog::Event;
use wire::Reply;

// A space and one character.
#[tactic(auto, unfolding(script::specs::Printing::typed))]
fn letter(line: &mut Page, c: u8)
    ensures same_reference { line.new.out.ghost_name ≡ line.old.out.ghost_name }
    ensures typed { page line.new.out.now line.new.at ≡ typed (page line.old.out.now line.old.at) (letter_of c) }
{
    line.put(b' ');
    line.put(c);
}

// A space and the bytes that a reply shows.
#[tactic(auto, unfolding(crate::specs::Showing::reply_text))]
fn reply(line: &mut Page, r: Reply)
    ensures same_reference { line.new.out.ghost_name ≡ line.old.out.ghost_name }
    ensures typed { page line.new.out.now line.new.at ≡ typed (page line.old.out.now line.old.at) (reply_text r) }
{
    line.string(wire::first(&r.bytes, r.len));
}

// The reply that was made in a tick, where one was.
fn made(line: &mut Page, made: Option<Reply>)
    ensures same_reference { line.new.out.ghost_name ≡ line.old.out.ghost_name }
    ensures typed { page line.new.out.now line.new.at ≡ typed (page line.old.out.now line.old.at) (made_text made) }
{
    match made {
        Some(r) => reply(line, r),
        None => letter(line, b'-'),
    }
}

// The mode, its age, the timer, and the channels that are on and latched.
#[tactic(auto, using(script::proofs::Turns::typed_append), unfolding(script::specs::Printing::typed, crate::specs::Showing::front_text))]
fn front(line: &mut Page, phase: ModeAge, timer: u64, c: Channels)
    ensures same_reference { line.new.out.ghost_name ≡ line.old.out.ghost_name }
    ensures typed { page line.new.out.now line.new.at ≡ typed (page line.old.out.now line.old.at) (front_text phase timer c) }
{
    line.put(naming::mode_letter(phase.mode()));
    line.field(phase.age(), 16);
    line.field(timer, 16);
    line.field(c.on() as u64, 8);
    line.field(c.latched() as u64, 8);
}

// The tick line, with the letters of what the watchdog did and of the answer.
// Kept: `replied` goes beside the board, as `unit::Told` has it; the reply lies in the board either way.
#[tactic(auto, using(script::proofs::Turns::typed_append), unfolding(script::specs::Printing::typed, crate::specs::Showing::tick_line))]
fn tick_line(line: &mut Page, b: Board, event: u8, answer: u8, replied: bool)
    ensures same_reference { line.new.out.ghost_name ≡ line.old.out.ghost_name }
    ensures typed { page line.new.out.now line.new.at ≡ typed (page line.old.out.now line.old.at) (tick_line event answer replied b) }
{
    front(line, b.phase, b.timer, b.channels);
    letter(line, event);
    letter(line, answer);
    made(line, replied.then_some(b.reply));
    line.put(b'\n');
}

// What a tick prints: its line, or that it was refused.
// Kept: `replied` as for `tick_line`.
#[tactic(auto, unfolding(crate::specs::Showing::ticked_line))]
pub fn ticked(b: Board, outcome: Outcome, event: Event, replied: bool, out: &mut [u8]) -> usize
    ensures { page out.new result ≡ typed (page out.old 0) (ticked_line outcome event replied b) }
{
    let watched = naming::event_letter(event);
    let mut line = Page::on(out);
    match outcome {
        Outcome::WrongWordCount => line.text(b"refused 9\n"),
        Outcome::NoTransfer => tick_line(&mut line, b, watched, b'-', replied),
        Outcome::Answered(a) => tick_line(&mut line, b, watched, naming::answer_digit(a), replied),
    }
    line.at
}

// The cause of the last reset and the three counts of resets.
#[tactic(auto, using(script::proofs::Turns::typed_append), unfolding(script::specs::Printing::typed, crate::specs::Showing::resets_text))]
fn resets(line: &mut Page, r: Resets)
    ensures same_reference { line.new.out.ghost_name ≡ line.old.out.ghost_name }
    ensures typed { page line.new.out.now line.new.at ≡ typed (page line.old.out.now line.old.at) (resets_text r) }
{
    line.field(answers::cause_number(r.cause), 2);
    line.field(r.power as u64, 4);
    line.field(r.watchdog as u64, 4);
    line.field(r.command as u64, 4);
}

// The stored save count, where something is stored.
#[tactic(auto, unfolding(crate::specs::Showing::stored_text))]
fn stored(line: &mut Page, s: Option<Stored>)
    ensures same_reference { line.new.out.ghost_name ≡ line.old.out.ghost_name }
    ensures typed { page line.new.out.now line.new.at ≡ typed (page line.old.out.now line.old.at) (stored_text s) }
{
    match s {
        Some(s) => line.field(s.save_count as u64, 4),
        None => letter(line, b'-'),
    }
}

// What the memory shows and holds.
#[tactic(auto, using(script::proofs::Turns::typed_append), unfolding(script::specs::Printing::typed, crate::specs::Showing::memory_text))]
fn memory(line: &mut Page, m: Memory)
    ensures same_reference { line.new.out.ghost_name ≡ line.old.out.ghost_name }
    ensures typed { page line.new.out.now line.new.at ≡ typed (page line.old.out.now line.old.at) (memory_text m) }
{
    line.field(m.shown.save_count as u64, 4);
    line.field(m.shown.checksum as u64, 4);
    stored(line, m.store);
    line.string(&image::bytes(m.current));
}

// The overcurrent counts.
fn counts(line: &mut Page, c: Channels)
    ensures same_reference { line.new.out.ghost_name ≡ line.old.out.ghost_name }
    ensures typed { page line.new.out.now line.new.at ≡ typed (page line.old.out.now line.old.at) (32 ∷ row 4 c.counts) }
{
    line.words(&c.counts());
}

// The words, as many as count.
fn measured(line: &mut Page, m: Measured, count: usize)
    ensures same_reference { line.new.out.ghost_name ≡ line.old.out.ghost_name }
    ensures typed { page line.new.out.now line.new.at ≡ typed (page line.old.out.now line.old.at) (32 ∷ row 4 (take count (raw_words m.words))) }
{
    line.words(wire::first(&readings::words(m.words), count));
}

// The state line.
#[tactic(auto, using(script::proofs::Turns::typed_append), unfolding(script::specs::Printing::typed, crate::specs::Showing::state_line))]
pub fn state(b: Board, out: &mut [u8]) -> usize
    ensures { page out.new result ≡ typed (page out.old 0) (state_line b) }
{
    let count = kinds::word_count(b.profile.kind);
    let mut line = Page::on(out);
    line.put(naming::form_letter(b.form));
    resets(&mut line, b.resets);
    memory(&mut line, b.memory);
    counts(&mut line, b.channels);
    measured(&mut line, b.measured, count);
    reply(&mut line, b.reply);
    line.put(b'\n');
    line.at
}
