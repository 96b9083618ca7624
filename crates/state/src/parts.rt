// The parts of a board.
ghost use Rattle.std.specs.Prelude.{◌≡◌, length};
ghost use Rattle.wire.specs.Replies.{found};
ghost use Rattle.state.specs.Parts.{distribution_board, battery_board, naming_raw, with_form};

use channels::Channels;
use kinds::Kind;
use memory::Memory;
use modes::ModeAge;
use readings::Raw;
use wire::{Form, Reply};

// What a board was started as. Its form is the one in which the text line starts, and starts over after a reset.
#[derive(Clone, Copy)]
pub struct Profile {
    pub fitted: u32,
    pub forced: u32,
    pub bid: u8,
    pub kind: Kind,
    pub form: Form,
}

// Why a board last started over, or that it left emergency since; each with the number that 0x4803 shows.
#[derive(Clone, Copy)]
pub enum Cause {
    PowerOn = 0,
    Watchdog = 1,
    Commanded = 2,
    Emergency = 4,
}

// How often each kind of reset happened, and the cause of the latest.
#[derive(Clone, Copy)]
pub struct Resets {
    pub power: u16,
    pub watchdog: u16,
    pub command: u16,
    pub cause: Cause,
}

// Whether the measured words are still new, brought and not yet told: as raw readings, and as engineering readings.
// Kept: two truth values, each of one of the two kinds of reading, which are told apart.
#[derive(Clone, Copy)]
pub struct Fresh {
    pub raw: bool,
    pub engineering: bool,
}

// The measured words, raw, of which as many count as the kind of board has, and whether they are still new.
#[derive(Clone, Copy)]
pub struct Measured {
    pub words: [Raw; 130],
    pub fresh: Fresh,
}

// All that a board keeps from one tick to the next.
#[derive(Clone, Copy)]
pub struct Board {
    pub phase: ModeAge,
    pub timer: u64,
    pub reply: Reply,
    pub memory: Memory,
    pub channels: Channels,
    pub profile: Profile,
    pub measured: Measured,
    pub resets: Resets,
    pub form: Form,
}

// The profile of a distribution board. It names no form, so that the board starts in ASCII form.
pub fn distribution(bid: u8, fitted: u32, forced: u32) -> Profile
    ensures { result ≡ distribution_board bid fitted forced }
{
    Profile {
        fitted,
        forced,
        bid,
        kind: Kind::Distribution,
        form: Form::Ascii,
    }
}

// The profile of a battery board, which fits no channel, with whether its ABF is placed. It names no form either.
// Kept: whether the ABF is placed is told of a profile and is no value's being there.
pub fn battery(bid: u8, abf: bool) -> Profile
    ensures { result ≡ battery_board bid abf }
{
    Profile {
        fitted: 0,
        forced: 0,
        bid,
        kind: Kind::Battery { abf },
        form: Form::Ascii,
    }
}

// The same profile, and it names raw.
pub fn naming_raw(profile: Profile) -> Profile
    ensures { result ≡ naming_raw profile }
{
    Profile {
        form: Form::Raw,
        ..profile
    }
}

// A bus read: the lent buffer then holds the waiting reply from its first byte and after it 0xFF. The board stays as it
// is.
pub fn read(b: Board, out: &mut [u8])
    ensures { out.new ≡ found b.reply (length out.old) }
{
    b.reply.fill(out);
}

// The board with its text line in a form.
pub fn with_form(b: Board, form: Form) -> Board
    ensures { result ≡ with_form form b }
{
    Board { form, ..b }
}
