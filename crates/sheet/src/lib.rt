// The session sheet, as it is read: a profile, and ticks one after another. No board is here.
#![tactic(auto)]

mod head;
mod ticks;
mod whole;

pub use head::Head;
pub use ticks::{TickLine, TickRefusal, read_tick};
pub use whole::read;
