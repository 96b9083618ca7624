// The pattern of the speed measurement, as docs/SPEED.md describes it: which run a line asks for, what each tick
// brings, and how the digest takes numbers in. It needs no board.
#![tactic(auto)]

mod digest;
mod kind;
mod line;
mod names;
mod ticks;

pub use digest::{Number, all_taken, summed, taken};
pub use kind::{RunKind, TickKind};
pub use line::{Run, asked_by};
pub use names::{NamesRun, NamesTick};
pub use ticks::{
    Brought, Transfer, brought_by, change, counted, first_words, is_waking, lent, place, turns,
};
