// Starting a board, and starting it over.
ghost use Rattle.std.specs.Prelude.{◌≡◌, cond};
ghost use Rattle.state.specs.Start.{never_reset, fresh_of, bid_in_range, any_fitted, channels_in_place, stored_in_range, keeps_the_rules, unstarted_board, start_of, start_number, by_watchdog, by_command, watchdog_reset_of, command_reset_of};

use crate::parts::{Board, Cause, Fresh, Measured, Profile, Resets, distribution};
use channels::Channels;
use memory::{Memory, Stored};
use modes::ModeAge;
use wire::Reply;

// Why a start is refused.
#[derive(Clone, Copy)]
pub enum StartRefusal {
    ProfileBreaksARule,
}

// The board after a start, and what the start answers. A refused start leaves the board that was there.
#[derive(Clone, Copy)]
pub struct Started {
    pub board: Board,
    pub answer: Result<(), StartRefusal>,
}

// The counts and the cause of a board that was just started.
#[tactic(auto, unfolding(crate::specs::Start::never_reset))]
fn never_reset() -> Resets
    ensures { result ≡ never_reset }
{
    Resets {
        power: 0,
        watchdog: 0,
        command: 0,
        cause: Cause::PowerOn,
    }
}

// A board in startup, which holds nothing from before but its profile, its store and its resets.
// Kept: a profile and what is stored stand side by side where a board starts, as a bench hands them in.
#[tactic(auto, unfolding(crate::specs::Start::fresh_of))]
fn fresh(profile: Profile, store: Option<Stored>, resets: Resets) -> Board
    ensures { result ≡ fresh_of profile store resets }
{
    Board {
        phase: ModeAge::start(),
        timer: 0,
        reply: Reply::none(),
        memory: Memory::loaded(profile.kind, store),
        channels: Channels::clear(),
        profile,
        measured: Measured {
            words: readings::none_measured(),
            fresh: Fresh {
                raw: false,
                engineering: false,
            },
        },
        resets,
        form: profile.form,
    }
}

// Whether the BID of a profile is one of its kind's.
#[tactic(auto, unfolding(crate::specs::Start::bid_in_range))]
fn bid_in_range(profile: Profile) -> bool
    ensures { result ≡ bid_in_range profile }
{
    1 <= profile.bid && profile.bid <= kinds::last_bid(profile.kind)
}

// Whether at least one channel is fitted, on a board that has a place for any.
#[tactic(auto, unfolding(crate::specs::Start::any_fitted))]
fn any_fitted(places: u32, fitted: u32) -> bool
    ensures { result ≡ any_fitted places fitted }
{
    places == 0 || fitted != 0
}

// Whether the channels of a profile are as its kind of board allows: at least one is fitted where any can be, each
// fitted one has a place, and each force-enabled one is fitted.
#[tactic(auto, unfolding(crate::specs::Start::channels_in_place))]
fn channels_in_place(profile: Profile) -> bool
    ensures { result ≡ channels_in_place profile }
{
    let places = kinds::places(profile.kind);
    any_fitted(places, profile.fitted)
        && channels::within(profile.fitted, places)
        && channels::within(profile.forced, profile.fitted)
}

// Whether the values that are stored, if any are, lie in range.
fn stored_in_range(store: Option<Stored>) -> bool
    ensures { result ≡ stored_in_range store }
{
    match store {
        Some(stored) => settings::in_range(stored.settings),
        None => true,
    }
}

// Whether a profile, with what is stored, keeps the rules of a profile.
#[tactic(auto, unfolding(crate::specs::Start::keeps_the_rules))]
fn keeps_the_rules(profile: Profile, store: Option<Stored>) -> bool
    ensures { result ≡ keeps_the_rules profile store }
{
    kinds::is_served(profile.kind)
        && bid_in_range(profile)
        && channels_in_place(profile)
        && stored_in_range(store)
}

// A board to stand where none was started yet: its profile has no channel and the BID 0, and would not be accepted.
#[tactic(auto, unfolding(crate::specs::Start::unstarted_board, memory::specs::Memory::empty_store))]
pub fn unstarted() -> Board
    ensures { result ≡ unstarted_board }
{
    fresh(distribution(0, 0, 0), None, never_reset())
}

// A board from a profile and what is stored; where the profile breaks a rule, the board that was there stays.
pub fn start(there: Board, profile: Profile, store: Option<Stored>) -> Started
    ensures value { result ≡ start_of there profile store }
    ensures number { start_number result.answer ≡ cond (keeps_the_rules profile store) 0 8 }
{
    if keeps_the_rules(profile, store) {
        return Started {
            board: fresh(profile, store, never_reset()),
            answer: Ok(()),
        };
    }
    Started {
        board: there,
        answer: Err(StartRefusal::ProfileBreaksARule),
    }
}

// The counts and the cause after a reset by the watchdog.
// Kept: a function of the cause would be a `match` of three arms, as long as the three.
#[tactic(auto, unfolding(crate::specs::Start::by_watchdog))]
fn by_watchdog(r: Resets) -> Resets
    ensures { result ≡ by_watchdog r }
{
    Resets {
        watchdog: memory::one_more(r.watchdog),
        cause: Cause::Watchdog,
        ..r
    }
}

// The counts and the cause after a reset by command.
#[tactic(auto, unfolding(crate::specs::Start::by_command))]
fn by_command(r: Resets) -> Resets
    ensures { result ≡ by_command r }
{
    Resets {
        command: memory::one_more(r.command),
        cause: Cause::Commanded,
        ..r
    }
}

// The board after its watchdog reset it.
// Kept: two lines each, which two rules of other crates call by their names.
#[tactic(auto, unfolding(crate::specs::Start::watchdog_reset_of))]
pub fn watchdog_reset(b: Board) -> Board
    ensures { result ≡ watchdog_reset_of b }
{
    fresh(b.profile, b.memory.store, by_watchdog(b.resets))
}

// The board after 0xAA reset it.
#[tactic(auto, unfolding(crate::specs::Start::command_reset_of))]
pub fn command_reset(b: Board) -> Board
    ensures { result ≡ command_reset_of b }
{
    fresh(b.profile, b.memory.store, by_command(b.resets))
}
