// What a parameter reads, the read-only ones too.
ghost use Rattle.std.specs.Prelude.{◌≡◌, take};
ghost use Rattle.state.specs.Parts.{cause_number};
ghost use Rattle.answers.specs.Parameters.{read_only_number, value_read, room_read};

use memory::Memory;
use settings::Got;
use state::{Cause, Profile, Resets};
use value::ValueBytes;

// A cause as 0x4803 shows it.
pub fn cause_number(cause: Cause) -> u64
    ensures { result ≡ cause_number cause }
{
    cause as u64
}

// The number that a read-only parameter reads: what the rule that names it speaks of, and 0 where no rule does.
fn read_only_number(p: Profile, m: Memory, r: Resets, id: u16) -> u64
    ensures { result ≡ read_only_number p m r id }
{
    let kind = p.kind;
    let cause = r.cause;
    match id {
        0x2800 => kinds::stid(kind) as u64,
        0x2801 => 7,
        0x2802 => p.bid as u64,
        0x4801 => m.shown.save_count as u64,
        0x4802 => m.shown.checksum as u64,
        0x4803 => cause_number(cause),
        0x4804 => r.power as u64,
        0x4805 => r.watchdog as u64,
        0x4806 => r.command as u64,
        0x480A => memory::EMERGENCY_LOW as u64,
        0x480B => memory::EMERGENCY_HIGH as u64,
        0x480C => memory::EMERGENCY_PERIOD as u64,
        0x480D => m.safety_low() as u64,
        0x480E => m.safety_high() as u64,
        0x480F => memory::LINGER as u64,
        0x4810 => m.timeout() as u64,
        0x6809 => p.forced as u64,
        _ => 0,
    }
}

// The bytes that an id reads, as many as its type has, at the front of a room of eight; an id that is no parameter has
// none.
pub fn value_read(p: Profile, m: Memory, r: Resets, id: u16) -> ValueBytes
    ensures read { take result.len result.bytes ≡ value_read p m r id }
    ensures room { result ≡ room_read p m r id }
{
    match settings::get(m.current, id) {
        Got::Value(v) => value::bytes(v),
        Got::ReadOnly(t) => ValueBytes {
            len: value::width(t),
            bytes: read_only_number(p, m, r, id).to_le_bytes(),
        },
        Got::Unknown => ValueBytes {
            len: 0,
            bytes: [0; 8],
        },
    }
}
