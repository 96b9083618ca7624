// What the tick of a turn brings, from the number that is drawn for it.
ghost use Rattle.std.specs.Prelude.{◌≡◌, ltb, take};
ghost use Rattle.pattern.specs.Pattern.{waking, turns_of, place_of, next_of, draw_of};
ghost use Rattle.pattern.specs.Ticks.{mixed_of, kind_of, named_of, framed_of, laid_of, transfer_of, brought_of, word_count, words_first, changed_of, lent_of};

use crate::kind::{RunKind, TickKind};
use crate::names::{NamesRun, NamesTick};
use kinds::Kind;

// A transfer: its bytes, of which `length` are sent.
// Kept: an array with a length beside it, as the project has no heap; `sent` is what others see of it.
#[derive(Clone, Copy)]
pub struct Transfer {
    length: usize,
    bytes: [u8; 8],
}

impl Transfer {
    // The bytes that are sent.
    pub fn sent(&self) -> &[u8]
        ensures { result.now ≡ take self.now.length self.now.bytes }
    {
        wire::first(&self.bytes, self.length)
    }
}

// The kind of a turn's tick and what it brings besides its words, from what was drawn as number x of the row: the rail
// in millivolts, the channels that report overcurrent and the transfer, where there is one.
#[derive(Clone, Copy)]
pub struct Brought {
    pub x: u64,
    pub named: u32,
    pub drawn: u16,
    pub rail: i16,
    pub kind: TickKind,
    pub transfer: Option<Transfer>,
}

// Turns until startup is over, each with a plain tick at the lowest rail.
const WAKING: u64 = 50;

// The kinds of a mixed run's ticks, again and again.
const MIX: [TickKind; 16] = [
    TickKind::Plain,
    TickKind::Noop,
    TickKind::Plain,
    TickKind::Get,
    TickKind::Plain,
    TickKind::OvercurrentState,
    TickKind::Plain,
    TickKind::Set,
    TickKind::Plain,
    TickKind::Group,
    TickKind::Plain,
    TickKind::Words,
    TickKind::Plain,
    TickKind::Housekeeping,
    TickKind::Plain,
    TickKind::Overcurrent,
];

// How many turns a run of so many ticks takes.
pub fn turns(count: u64) -> u64
    ensures { result ≡ turns_of count }
{
    WAKING + count % 1000000000
}

// Whether a turn belongs to the waking of the board.
pub fn is_waking(turn: u64) -> bool
    ensures { result ≡ ltb turn waking }
{
    turn < WAKING
}

// The place of a turn's tick in the pattern; 0 for one that is not in it.
pub fn place(turn: u64) -> u64
    ensures { result ≡ place_of turn }
{
    turn.saturating_sub(WAKING)
}

// The number of a turn in the row that the draws come from, which follows x; a waking turn draws none. The first, 1,
// makes the draw 0 and so the lowest rail.
fn next(turn: u64, x: u64) -> u64
    ensures { result ≡ next_of turn x }
{
    if is_waking(turn) {
        return x;
    }
    (x % 2147483648 * 1103515245 + 12345) % 2147483648
}

// The draw of a number of the row: its upper 15 bits.
fn draw(x: u64) -> u16
    ensures { result ≡ draw_of x }
{
    (x / 65536 % 32768) as u16
}

// The kind of tick i of a mixed run: each second one is plain.
fn mixed(i: u64) -> TickKind
    ensures { result ≡ mixed_of i }
{
    MIX[(i % 16) as usize]
}

// The kind of a turn's tick in a run of some kinds; a waking turn's is plain.
fn kind_at(kinds: RunKind, turn: u64) -> TickKind
    ensures { result ≡ kind_of kinds turn }
{
    match kinds {
        _ if is_waking(turn) => TickKind::Plain,
        RunKind::Each(kind) => kind,
        RunKind::Mixed => mixed(place(turn)),
    }
}

// A transfer to the board of so many bytes, with a code and four bytes behind its head.
fn framed(length: usize, code: u8, behind: [u8; 4]) -> Transfer
    ensures { result ≡ framed_of length code behind }
{
    let [a, b, c, d] = behind;
    let bytes = [kinds::stid(Kind::Distribution), 7, code, 1, a, b, c, d];
    Transfer { length, bytes }
}

impl TickKind {
    // The channels that a tick of the kind names.
    fn named(self, drawn: u16) -> u32
        ensures { result ≡ named_of self drawn }
    {
        match self {
            TickKind::Overcurrent => drawn as u32 * 65537,
            _ => 0,
        }
    }

    // The transfer of a tick of the kind, where it brings one.
    fn transfer(self, drawn: u16) -> Option<Transfer>
        ensures { result ≡ laid_of (transfer_of self drawn) }
    {
        let [low, high] = drawn.to_le_bytes();
        let transfer = match self {
            TickKind::Noop => framed(4, 0x02, [0; 4]),
            TickKind::OvercurrentState => framed(4, 0x42, [0; 4]),
            TickKind::Housekeeping => framed(4, 0x50, [0; 4]),
            TickKind::Get => framed(6, 0x82, [(drawn % 68) as u8, 0x40, 0, 0]),
            TickKind::Set => framed(8, 0x84, [(1 + drawn % 64) as u8, 0x40, low, high]),
            TickKind::Group => {
                let code = if drawn % 2 == 0 { 0x10 } else { 0x14 };
                framed(8, code, [low, high, low, high])
            }
            _ => return None,
        };
        Some(transfer)
    }
}

// The kind of a turn's tick in a run of some kinds, given as such or by their letter, and what it brings, where x was
// drawn last.
pub fn brought_by<R: NamesRun>(run: R, turn: u64, x: u64) -> Brought
    ensures { result ≡ brought_of (R.kinds run) turn x }
{
    let x = next(turn, x);
    let drawn = draw(x);
    let kind = kind_at(run.kinds(), turn);
    Brought {
        x,
        named: kind.named(drawn),
        drawn,
        rail: (15000 + drawn % 1000) as i16,
        kind,
        transfer: kind.transfer(drawn),
    }
}

// The room for words before the first tick: each is its own place.
pub fn first_words() -> [u16; 130]
    ensures { result ≡ words_first }
{
    std::array::from_fn(|i| i as u16)
}

// How many words the board has.
fn word_count() -> usize
    ensures { result ≡ word_count }
{
    kinds::word_count(Kind::Distribution)
}

// The words that the board has, of a room for words.
pub fn counted(words: &[u16]) -> &[u16]
    ensures { result.now ≡ take word_count words.now }
{
    wire::first(words, word_count())
}

// The words as a tick of a kind lends them, the kind given as such or by its letter: where it lends any, one of them
// has become the draw.
pub fn change<K: NamesTick>(words: &mut [u16; 130], kind: K, drawn: u16)
    ensures { words.new ≡ changed_of (K.kind kind) drawn words.old }
{
    if let TickKind::Words = kind.kind() {
        words[drawn as usize % word_count()] = drawn;
    }
}

// The words that a tick of a kind lends, the kind given as such or by its letter: all of the board or none.
pub fn lent<K: NamesTick>(words: &[u16; 130], kind: K) -> &[u16]
    ensures { result.now ≡ lent_of (K.kind kind) words.now }
{
    match kind.kind() {
        TickKind::Words => counted(words),
        _ => &[],
    }
}

impl Brought {
    // The words as the tick lends them: where it lends any, one of them has become the draw.
    pub fn change(&self, words: &mut [u16; 130])
        ensures { words.new ≡ changed_of self.now.kind self.now.drawn words.old }
    {
        change(words, self.kind, self.drawn);
    }

    // The words that the tick lends: all of the board or none.
    pub fn lent<'a>(&self, words: &'a [u16; 130]) -> &'a [u16]
        ensures { result.now ≡ lent_of self.now.kind words.now }
    {
        lent(words, self.kind)
    }
}
