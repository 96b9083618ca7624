// What a board is made of, how it starts and starts over.
#![tactic(auto)]

mod parts;
mod starting;

pub use parts::{
    Board, Cause, Fresh, Measured, Profile, Resets, battery, distribution, naming_raw, read,
    with_form,
};
pub use starting::{StartRefusal, Started, command_reset, start, unstarted, watchdog_reset};
