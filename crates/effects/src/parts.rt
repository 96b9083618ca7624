// The parts in which a command is obeyed. A board is changed in place, since handing it back as a whole costs a copy of
// it at each turn.
use answers::Outcome;
use channels::Channels;
use modes::ModeAge;
use state::Fresh;
use value::ParamValue;

// Mode and age, timer, channels, and whether the words are new, as a transfer leaves them; what the tick tells of it,
// and whether a reply was made. What else a restart changes is left to `state`.
// Kept: nothing stands beside `replied`; the reply itself is laid in the board's buffer, by its layout.
#[derive(Clone, Copy)]
pub struct Obeyed {
    pub phase: ModeAge,
    pub timer: u64,
    pub channels: Channels,
    pub outcome: Outcome,
    pub fresh: Fresh,
    pub replied: bool,
}

// What a command does to the settings and to what is stored of them; a restart loads them with all else.
// Kept: `AsBefore` is no lack alone: a restart, too, alters nothing here, and the two are told apart where the board
// starts over.
#[derive(Clone, Copy)]
pub enum MemoryChange {
    AsBefore,
    Set(u16, ParamValue),
    ResetOne(u16),
    Defaults,
    Load,
    Save(u16),
    Restart,
}
