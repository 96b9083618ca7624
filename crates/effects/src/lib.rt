// What each command does once the decoder let it through, part by part: to some parts of a board, to its memory, and
// how its reply is laid out.
#![tactic(auto, unfolding(answers::specs::Answers::accepted_of, answers::specs::Answers::accepted_with, answers::specs::Answers::refused_of, state::specs::Start::command_reset_of, state::specs::Start::fresh_of, crate::specs::Effects::switched_mode_of, crate::specs::Effects::housekeeping_of, crate::specs::Effects::engineering_housekeeping_of, crate::specs::Effects::battery_housekeeping_of, crate::specs::Effects::engineering_battery_housekeeping_of, crate::specs::Effects::faults_of, crate::specs::Effects::parameter_answered, crate::specs::Effects::abf_of, crate::specs::Effects::reported_of, crate::specs::Effects::remembered_of, crate::specs::Effects::saved_in, crate::specs::Effects::restarted_of, crate::specs::Effects::run_of,))]

ghost use Rattle.std.specs.Prelude.{◌≡◌};
ghost use Rattle.answers.specs.Answers.{accepted_of, refused_of};
ghost use Rattle.state.specs.Parts.{with_phase, with_channels};
ghost use Rattle.effects.specs.Effects.{switched_mode_of, housekeeping_of, engineering_housekeeping_of, saved_in, restarted_of, reported_of, run_of};
ghost use Rattle.effects.specs.Parts.{any_code, obeyed_in, layout_of, memory_change_of};

mod parts;
mod switching;

use answers::{Answer, Outcome};
use channels::Channels;
use command::{Command, Layout};
use memory::SaveRefusal;
use modes::{Limits, ModeAge};
pub use parts::{MemoryChange, Obeyed};
use state::{Board, Fresh};
use switching::{cancelled, channel_off, channel_on, group_off, group_on, group_state};

// Accepted, with a mode and channels of its own; the timer is fed.
fn accepted(b: Board, phase: ModeAge, channels: Channels) -> Obeyed
    ensures { result ≡ obeyed_in (accepted_of any_code (with_phase phase (with_channels channels b))) }
{
    let fresh = b.measured.fresh;
    Obeyed {
        phase,
        timer: 0,
        channels,
        outcome: Outcome::Answered(Answer::Accepted),
        fresh,
        replied: true,
    }
}

// Answered with 0 or with 4 to 7, and nothing but the timer changes: it is fed, which 3 would not do.
pub fn only_fed(b: Board, answer: Answer) -> Obeyed
    ensures { result ≡ obeyed_in (refused_of answer any_code b) }
{
    let phase = b.phase.kept();
    let channels = b.channels;
    let fresh = b.measured.fresh;
    Obeyed {
        phase,
        timer: 0,
        channels,
        outcome: Outcome::Answered(answer),
        fresh,
        replied: true,
    }
}

// 0x30 and 0x32: the mode, and with it the channels, where the change is available.
fn switched_mode(b: Board, asked: Option<ModeAge>) -> Obeyed
    ensures { result ≡ obeyed_in (switched_mode_of any_code asked b) }
{
    match asked {
        Some(phase) => {
            let channels = change::entering(b.phase.mode(), phase.mode(), b.profile, b.channels);
            accepted(b, phase, channels)
        }
        None => only_fed(b, Answer::NotAvailable),
    }
}

// 0x50, and 0x60 on a battery board: the measured words are no longer new as raw readings.
fn housekeeping(b: Board) -> Obeyed
    ensures { result ≡ obeyed_in (housekeeping_of any_code b) }
{
    let mut told = only_fed(b, Answer::Accepted);
    told.fresh.raw = false;
    told
}

// 0x52, and 0x62 on a battery board: the measured words are no longer new as engineering readings.
// Kept: this and the one above are three lines each, and differ in the field that they clear.
fn engineering_housekeeping(b: Board) -> Obeyed
    ensures { result ≡ obeyed_in (engineering_housekeeping_of any_code b) }
{
    let mut told = only_fed(b, Answer::Accepted);
    told.fresh.engineering = false;
    told
}

// 0x94: refused where the checksum is neither 0 nor right.
fn saved(b: Board, checksum: u16) -> Obeyed
    ensures { result ≡ obeyed_in (saved_in any_code checksum b) }
{
    match b.memory.save(checksum) {
        Ok(_) => only_fed(b, Answer::Accepted),
        Err(SaveRefusal::WrongChecksum) => only_fed(b, Answer::Wrong),
    }
}

// 0xAA: as a board is that starts over, with no reply.
fn restarted(b: Board) -> Obeyed
    ensures { result ≡ obeyed_in (restarted_of b) }
{
    let phase = ModeAge::start();
    let channels = Channels::clear();
    Obeyed {
        phase,
        timer: 0,
        channels,
        outcome: Outcome::Answered(Answer::Accepted),
        fresh: Fresh {
            raw: false,
            engineering: false,
        },
        replied: false,
    }
}

// A command that changes neither mode, channels nor memory: of those parts the timer alone is another, and after 0x50,
// 0x52, 0x60 and 0x62 what is new.
fn reported(b: Board, layout: Layout) -> Obeyed
    ensures { result ≡ obeyed_in (reported_of any_code layout b) }
{
    match layout {
        Layout::Housekeeping | Layout::BatteryHousekeeping => housekeeping(b),
        Layout::EngineeringHousekeeping | Layout::EngineeringBatteryHousekeeping => {
            engineering_housekeeping(b)
        }
        Layout::Short | Layout::Faults | Layout::Parameter(_) | Layout::AbfPlacedState => {
            only_fed(b, Answer::Accepted)
        }
    }
}

// What a command that the decoder let through leaves of those parts.
pub fn run(b: Board, rail: i16, limits: Limits, c: Command) -> Obeyed
    ensures { result ≡ obeyed_in (run_of rail limits any_code c b) }
{
    match c {
        Command::SystemReset => restarted(b),
        Command::CancelOperation => cancelled(b),
        Command::GroupOn(g) => group_on(b, g),
        Command::GroupOff(g) => group_off(b, g),
        Command::GroupState(g) => group_state(b, g),
        Command::ChannelOn(one) => channel_on(b, one),
        Command::ChannelOff(one) => channel_off(b, one),
        Command::SwitchToNominal => switched_mode(b, b.phase.to_nominal(rail, limits)),
        Command::SwitchToSafety => switched_mode(b, b.phase.to_safety()),
        Command::SetParameter(_, _)
        | Command::ResetParameter(_)
        | Command::ResetConfiguration
        | Command::LoadConfiguration => only_fed(b, Answer::Accepted),
        Command::SaveConfiguration(checksum) => saved(b, checksum),
        Command::Report(layout) => reported(b, layout),
    }
}

// How the reply to a command is laid out.
pub fn layout_of(c: Command) -> Layout
    ensures { result ≡ layout_of c }
{
    match c {
        Command::SetParameter(id, _) | Command::ResetParameter(id) => Layout::Parameter(id),
        Command::Report(layout) => layout,
        Command::SystemReset
        | Command::CancelOperation
        | Command::GroupOn(_)
        | Command::GroupOff(_)
        | Command::GroupState(_)
        | Command::ChannelOn(_)
        | Command::ChannelOff(_)
        | Command::SwitchToNominal
        | Command::SwitchToSafety
        | Command::ResetConfiguration
        | Command::LoadConfiguration
        | Command::SaveConfiguration(_) => Layout::Short,
    }
}

// What a command does to the memory.
pub fn memory_change_of(c: Command) -> MemoryChange
    ensures { result ≡ memory_change_of c }
{
    match c {
        Command::SystemReset => MemoryChange::Restart,
        Command::SetParameter(id, v) => MemoryChange::Set(id, v),
        Command::ResetParameter(id) => MemoryChange::ResetOne(id),
        Command::ResetConfiguration => MemoryChange::Defaults,
        Command::LoadConfiguration => MemoryChange::Load,
        Command::SaveConfiguration(checksum) => MemoryChange::Save(checksum),
        Command::CancelOperation
        | Command::GroupOn(_)
        | Command::GroupOff(_)
        | Command::GroupState(_)
        | Command::ChannelOn(_)
        | Command::ChannelOff(_)
        | Command::SwitchToNominal
        | Command::SwitchToSafety
        | Command::Report(_) => MemoryChange::AsBefore,
    }
}
