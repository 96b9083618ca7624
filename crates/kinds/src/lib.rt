// The kinds of board, and what goes by the kind: the table of specs/Kinds.antt, with a function for each column that
// code asks for, and which kinds can be started.
#![tactic(auto)]

ghost use Rattle.std.specs.Prelude.{◌≡◌};
ghost use Rattle.kinds.specs.Kinds.{board_of, is_in, is_served};

// A kind of board: the battery board with whether its ABF is placed, the integrated board with whether it has a
// daughterboard.
// Kept: three boards, of which two come in two makes; none is the lack of another.
#[derive(Clone, Copy, PartialEq, Eq)]
pub enum Kind {
    Distribution,
    Battery { abf: bool },
    Integrated { daughterboard: bool },
}

// The STID of a kind of board.
// Kept: each function down to `places` is a column of the table. A variant that carries something has no number of its
// own, and a row of all columns would be put together for the one that is asked for.
pub fn stid(kind: Kind) -> u8
    ensures { result ≡ (board_of kind).stid }
{
    match kind {
        Kind::Distribution => 0x11,
        Kind::Battery { .. } => 0x12,
        Kind::Integrated { .. } => 0x1A,
    }
}

// The last BID of a kind of board; the first is 1.
pub fn last_bid(kind: Kind) -> u8
    ensures { result ≡ (board_of kind).last_bid }
{
    match kind {
        Kind::Distribution => 8,
        Kind::Battery { .. } => 4,
        Kind::Integrated { .. } => 1,
    }
}

// How many measured words a tick of a kind of board brings, where it brings any.
pub fn word_count(kind: Kind) -> usize
    ensures { result ≡ (board_of kind).words }
{
    match kind {
        Kind::Distribution => 122,
        Kind::Battery { .. } => 39,
        Kind::Integrated { daughterboard } => if daughterboard { 130 } else { 53 },
    }
}

// The channels that the layout of a kind of board has a place for, as a set.
pub fn places(kind: Kind) -> u32
    ensures { result ≡ (board_of kind).places }
{
    match kind {
        Kind::Distribution => 0xFFFFFFFF,
        Kind::Battery { .. } => 0,
        Kind::Integrated { daughterboard } => if daughterboard { 0xFFFFFFFF } else { 0x1FF },
    }
}

// The codes that a kind of board has in its list.
fn codes(kind: Kind) -> &'static [u8]
    ensures { result.now ≡ (board_of kind).codes }
{
    match kind {
        Kind::Distribution => &[
            0xAA, 0x02, 0x04, 0x06, 0x10, 0x12, 0x14, 0x16, 0x18, 0x30, 0x32, 0x42, 0x50, 0x82,
            0x84, 0x86, 0x90, 0x92, 0x94, 0x52,
        ],
        Kind::Battery { .. } => &[
            0xAA, 0x02, 0x06, 0x30, 0x32, 0x82, 0x84, 0x86, 0x90, 0x92, 0x94, 0x44, 0x60, 0x62,
        ],
        Kind::Integrated { .. } => &[
            0xAA, 0x02, 0x04, 0x06, 0x10, 0x12, 0x14, 0x16, 0x18, 0x30, 0x32, 0x42, 0x82, 0x84,
            0x86, 0x90, 0x92, 0x94,
        ],
    }
}

// Whether a kind of board has a code in its list.
pub fn lists(kind: Kind, code: u8) -> bool
    ensures { result ≡ is_in code (board_of kind).codes }
{
    codes(kind).contains(&code)
}

// Whether the ABF of a kind of board is placed; a board that has none has none placed.
pub fn abf_placed(kind: Kind) -> bool
    ensures { result ≡ (board_of kind).abf_placed }
{
    matches!(kind, Kind::Battery { abf: true })
}

// Whether a profile of a kind of board can be started.
pub fn is_served(kind: Kind) -> bool
    ensures { result ≡ is_served kind }
{
    matches!(kind, Kind::Distribution | Kind::Battery { .. })
}
