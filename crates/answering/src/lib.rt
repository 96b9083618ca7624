// What an answered transfer leaves to be read, and what it leaves of the memory.
#![tactic(auto)]

ghost use Rattle.std.specs.Prelude.{◌≡◌, take};
ghost use Rattle.wire.specs.Replies.{reply_of};
ghost use Rattle.kinds.specs.Kinds.{board_of};
ghost use Rattle.readings.specs.Readings.{raw_words, engineering_words};
ghost use Rattle.readings.specs.Layout as places;
ghost use Rattle.readings.specs.Packs.{packs, told_by};
ghost use Rattle.replies.specs.Layouts.{housekeeping_reply, battery_reply};
ghost use Rattle.effects.specs.Effects.{new_where};
ghost use Rattle.answering.specs.Answering.{stat_told, reply_to, alters, is_restart, memory_after};

use answers::{Outcome, Received, header, stat, value_read};
use channels::Channels;
use command::Layout;
use effects::MemoryChange;
use kinds::Kind;
use memory::Memory;
use replies::Head;
use state::{Board, Measured};
use wire::Reply;

// The status code of what a tick tells of its transfer; 0 stands where there is no answer, and is never sent.
fn stat_told(outcome: Outcome) -> u8
    ensures { result ≡ stat_told outcome }
{
    match outcome {
        Outcome::WrongWordCount | Outcome::NoTransfer => 0,
        Outcome::Answered(answer) => stat(answer),
    }
}

// The status of an accepted 0x50, 0x52, 0x60 or 0x62: NEW where the words are still new as readings of that kind.
fn new_where(fresh: bool) -> u8
    ensures { result ≡ new_where fresh }
{
    if fresh { 0x80 } else { 0x00 }
}

// The reply of 0x50 of a board with these channels and the first of these words, as many as its kind has.
fn housekeeping(head: Head, kind: Kind, c: Channels, m: Measured) -> Reply
    ensures { result ≡ reply_of (housekeeping_reply head.board head.code (new_where m.fresh.raw) c.on c.latched (take (board_of kind).words (raw_words m.words))) }
{
    Head {
        stat: new_where(m.fresh.raw),
        ..head
    }
    .raw_housekeeping(c.on(), c.latched(), m.words, kinds::word_count(kind))
}

// The reply of 0x52 of a board with these channels and these words, in the units of their fields.
fn engineering_housekeeping(head: Head, c: Channels, m: Measured) -> Reply
    ensures { result ≡ reply_of (housekeeping_reply head.board head.code (new_where m.fresh.engineering) c.on c.latched (engineering_words (places.converted_by places.layout m.words))) }
{
    Head {
        stat: new_where(m.fresh.engineering),
        ..head
    }
    .engineering_housekeeping(c.on(), c.latched(), readings::convert_all(m.words))
}

// The reply of 0x60 of a board with the first of these words, as many as its kind has.
fn battery_housekeeping(head: Head, kind: Kind, m: Measured) -> Reply
    ensures { result ≡ reply_of (battery_reply head.board head.code (new_where m.fresh.raw) (take (board_of kind).words (raw_words m.words))) }
{
    Head {
        stat: new_where(m.fresh.raw),
        ..head
    }
    .raw_battery(m.words, kinds::word_count(kind))
}

// The reply of 0x62 of a board with these words, each in the way of its field.
fn engineering_battery_housekeeping(head: Head, m: Measured) -> Reply
    ensures { result ≡ reply_of (battery_reply head.board head.code (new_where m.fresh.engineering) (told_by packs m.words)) }
{
    Head {
        stat: new_where(m.fresh.engineering),
        ..head
    }
    .engineering_battery(m.words)
}

// The reply of a board whose memory is as after the command and whose words are as new as before it, with the board's
// own header and not the one that was received.
pub fn reply_to(b: Board, received: Received, outcome: Outcome, layout: Layout) -> Reply
    ensures { result ≡ reply_to received.code outcome layout b }
{
    let c = b.channels;
    let kind = b.profile.kind;
    let head = Head {
        board: header(b.profile),
        code: received.code,
        stat: 0x80,
    };
    match layout {
        Layout::Short => Head {
            stat: stat_told(outcome),
            ..head
        }
        .short(),
        Layout::Faults => head.faults(c.on(), c.latched(), c.counts()),
        Layout::Housekeeping => housekeeping(head, kind, c, b.measured),
        Layout::Parameter(id) => {
            let value = value_read(b.profile, b.memory, b.resets, id);
            head.parameter(id, value)
        }
        Layout::EngineeringHousekeeping => engineering_housekeeping(head, c, b.measured),
        Layout::AbfPlacedState => head.abf(kinds::abf_placed(kind)),
        Layout::BatteryHousekeeping => battery_housekeeping(head, kind, b.measured),
        Layout::EngineeringBatteryHousekeeping => {
            engineering_battery_housekeeping(head, b.measured)
        }
    }
}

// Whether the memory may be altered, other than by starting over.
pub fn is_altering(change: MemoryChange) -> bool
    ensures { result ≡ alters change }
{
    !matches!(change, MemoryChange::AsBefore | MemoryChange::Restart)
}

// Whether the board starts over.
pub fn is_restart(change: MemoryChange) -> bool
    ensures { result ≡ is_restart change }
{
    matches!(change, MemoryChange::Restart)
}

// The memory of a kind of board after a command that does not start it over. A save that is refused leaves it.
pub fn memory_after(kind: Kind, m: Memory, change: MemoryChange) -> Memory
    ensures { result ≡ memory_after kind change m }
{
    match change {
        MemoryChange::AsBefore | MemoryChange::Restart => m,
        MemoryChange::Set(id, v) => m.set(id, v),
        MemoryChange::ResetOne(id) => m.reset_one(kind, id),
        MemoryChange::Defaults => m.to_defaults(kind),
        MemoryChange::Load => m.load(kind),
        MemoryChange::Save(checksum) => m.save(checksum).unwrap_or(m),
    }
}
