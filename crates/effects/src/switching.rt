// The commands on channels: 0x10, 0x12, 0x14, 0x16, 0x18 and 0x04.
#![tactic(auto, unfolding(answers::specs::Answers::accepted_of, answers::specs::Answers::accepted_with, crate::specs::Effects::is_nominal, crate::specs::Effects::switched_of, crate::specs::Effects::group_on_of, crate::specs::Effects::group_off_of, crate::specs::Effects::group_state_of, crate::specs::Effects::channel_on_of, crate::specs::Effects::channel_off_of, crate::specs::Effects::cancelled_of,))]

ghost use Rattle.std.specs.Prelude.{◌≡◌};
ghost use Rattle.effects.specs.Effects.{switched_of, cancelled_of, group_on_of, group_off_of, group_state_of, channel_on_of, channel_off_of};
ghost use Rattle.effects.specs.Parts.{any_code, obeyed_in};

use crate::parts::Obeyed;
use crate::{accepted, only_fed};
use answers::Answer;
use channels::Channels;
use command::Group;
use modes::Mode;
use state::Board;

// One of the five from 0x10 to 0x18: available in nominal alone, and then right or wrong by the channel it names.
// Kept: `right` is what `may_switch_on` and `may_switch_off` answer, and their contracts say a truth value.
fn switched(b: Board, right: bool, channels: Channels) -> Obeyed
    ensures { result ≡ obeyed_in (switched_of any_code right channels b) }
{
    if b.phase.mode() != Mode::Nominal {
        return only_fed(b, Answer::NotAvailable);
    }
    if !right {
        return only_fed(b, Answer::Wrong);
    }
    accepted(b, b.phase.kept(), channels)
}

// 0x10 group on.
// Kept: a board and a group stand side by side in three commands; the one is changed by the other.
pub fn group_on(b: Board, g: Group) -> Obeyed
    ensures { result ≡ obeyed_in (group_on_of any_code g b) }
{
    let channels = b.channels.group_on(b.profile.fitted, g.spoken, g.mask);
    switched(b, true, channels)
}

// 0x12 group off.
// Kept: it and 0x14 differ in what happens to the channels; a function of both would be told that by a closure of three
// lines, which are all that each of them has.
pub fn group_off(b: Board, g: Group) -> Obeyed
    ensures { result ≡ obeyed_in (group_off_of any_code g b) }
{
    let channels = b
        .channels
        .group_off(b.profile.fitted, b.profile.forced, g.spoken, g.mask);
    switched(b, true, channels)
}

// 0x14 group state.
pub fn group_state(b: Board, g: Group) -> Obeyed
    ensures { result ≡ obeyed_in (group_state_of any_code g b) }
{
    let channels = b
        .channels
        .group_state(b.profile.fitted, b.profile.forced, g.spoken, g.mask);
    switched(b, true, channels)
}

// 0x16: one channel on.
pub fn channel_on(b: Board, one: u8) -> Obeyed
    ensures { result ≡ obeyed_in (channel_on_of any_code one b) }
{
    let right = channels::may_switch_on(b.profile.fitted, one);
    let channels = b.channels.switch_on(b.profile.fitted, one);
    switched(b, right, channels)
}

// 0x18: one channel off.
pub fn channel_off(b: Board, one: u8) -> Obeyed
    ensures { result ≡ obeyed_in (channel_off_of any_code one b) }
{
    let right = channels::may_switch_off(b.profile.fitted, b.profile.forced, one);
    let channels = b
        .channels
        .switch_off(b.profile.fitted, b.profile.forced, one);
    switched(b, right, channels)
}

// 0x04, in every mode but startup: no channel that a command may switch off stays on.
pub fn cancelled(b: Board) -> Obeyed
    ensures { result ≡ obeyed_in (cancelled_of any_code b) }
{
    let channels = b
        .channels
        .command_enabled_off(b.profile.fitted, b.profile.forced);
    accepted(b, b.phase.kept(), channels)
}
