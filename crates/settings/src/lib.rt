// The read/write parameters of Table 3-25: what an id is, and its value read, set and reset.
#![tactic(auto)]

ghost use Rattle.std.specs.Prelude.{◌≡◌};
ghost use Rattle.settings.specs.Table.{parameter_of, low_of, high_of, clamp_of, inside_of};
ghost use Rattle.settings.specs.Values.{get_of, set_of, reset_of, defaults_of, in_range_of};
ghost use Rattle.settings.specs.Places.{place_of, HasEnds};
ghost use Rattle.settings.specs.Answers.{set_number, get_number, settable_number, known_number};

mod tables;

use kinds::Kind;
use value::{ParamValue, ValueType};

// The values of the 140 parameters, an array for each type, from the lowest id of the type on.
#[derive(Clone, Copy)]
pub struct Settings {
    pub u32s: [u32; 6],
    pub u16s: [u16; 68],
    pub i16s: [i16; 42],
    pub i8s: [i8; 21],
    pub u8s: [u8; 3],
}

// What an id is: a parameter of Table 3-25, one of Table 3-26, or none.
// Kept: an id is of one table, of another, or of none, and each is answered in its own way; so in the two below.
#[derive(Clone, Copy)]
pub enum Parameter {
    ReadWrite(ValueType),
    ReadOnly(ValueType),
    Unknown,
}

// What is read of an id: its value, or that it is read-only or no parameter.
#[derive(Clone, Copy)]
pub enum Got {
    Value(ParamValue),
    ReadOnly(ValueType),
    Unknown,
}

// Where an id's value stands: the array of its type, and the place in it.
#[derive(Clone, Copy)]
enum Place {
    Int8(usize),
    Uint8(usize),
    Int16(usize),
    Uint16(usize),
    Uint32(usize),
    ReadOnly(ValueType),
    Unknown,
}

// Where an id's value stands; the ids of a type have no gaps, so the place is how far the id is past the type's first.
fn place_of(id: u16) -> Place
    ensures { result ≡ place_of id }
{
    match id {
        0x1000..=0x1014 => Place::Int8((id - 0x1000) as usize),
        0x2000..=0x2002 => Place::Uint8((id - 0x2000) as usize),
        0x3000..=0x3029 => Place::Int16((id - 0x3000) as usize),
        0x4000..=0x4043 => Place::Uint16((id - 0x4000) as usize),
        0x6000..=0x6005 => Place::Uint32((id - 0x6000) as usize),
        0x1800 => Place::ReadOnly(ValueType::Int8),
        0x2800..=0x2803 => Place::ReadOnly(ValueType::Uint8),
        0x3800..=0x3801 => Place::ReadOnly(ValueType::Int16),
        0x4800..=0x4813 => Place::ReadOnly(ValueType::Uint16),
        0x6800..=0x6814 => Place::ReadOnly(ValueType::Uint32),
        _ => Place::Unknown,
    }
}

// What an id is, and its type where it is a parameter.
pub fn parameter_of(id: u16) -> Parameter
    ensures value { result ≡ parameter_of id }
    ensures number { set_number result ≡ settable_number id }
{
    match place_of(id) {
        Place::Int8(_) => Parameter::ReadWrite(ValueType::Int8),
        Place::Uint8(_) => Parameter::ReadWrite(ValueType::Uint8),
        Place::Int16(_) => Parameter::ReadWrite(ValueType::Int16),
        Place::Uint16(_) => Parameter::ReadWrite(ValueType::Uint16),
        Place::Uint32(_) => Parameter::ReadWrite(ValueType::Uint32),
        Place::ReadOnly(t) => Parameter::ReadOnly(t),
        Place::Unknown => Parameter::Unknown,
    }
}

// The defaults of 0x6000 to 0x6005 on a kind of board, the only ones that differ between the boards.
fn uint32_defaults(kind: Kind) -> [u32; 6]
    ensures { result ≡ (defaults_of kind).u32s }
{
    match kind {
        Kind::Distribution => tables::DISTRIBUTION_DEFAULT,
        Kind::Battery { abf: _ } => tables::BATTERY_DEFAULT,
        Kind::Integrated { daughterboard: _ } => tables::INTEGRATED_DEFAULT,
    }
}

// Every parameter at its default on a kind of board.
pub fn defaults(kind: Kind) -> Settings
    ensures { result ≡ defaults_of kind }
{
    let u32s = uint32_defaults(kind);
    Settings {
        u32s,
        u16s: tables::UINT16_DEFAULT,
        i16s: tables::INT16_DEFAULT,
        i8s: tables::INT8_DEFAULT,
        u8s: tables::UINT8_DEFAULT,
    }
}

// The value of a read/write parameter; of any other id, whether it is read-only or unknown.
pub fn get(s: Settings, id: u16) -> Got
    ensures value { result ≡ get_of s id }
    ensures number { get_number result ≡ known_number id }
{
    let p = place_of(id);
    match p {
        Place::Int8(i) => Got::Value(ParamValue::Int8(s.i8s[i])),
        Place::Uint8(i) => Got::Value(ParamValue::Uint8(s.u8s[i])),
        Place::Int16(i) => Got::Value(ParamValue::Int16(s.i16s[i])),
        Place::Uint16(i) => Got::Value(ParamValue::Uint16(s.u16s[i])),
        Place::Uint32(i) => Got::Value(ParamValue::Uint32(s.u32s[i])),
        Place::ReadOnly(t) => Got::ReadOnly(t),
        Place::Unknown => Got::Unknown,
    }
}

// The ends of a parameter's range.
#[derive(Clone, Copy)]
struct Ends {
    low: i32,
    high: i32,
}

// The ends of the range of an int16 or a uint16 parameter, the only types with a range narrower than the type; where
// Table 3-25 gives no end, the type's own end stands.
fn ends_of(id: u16) -> Ends
    requires { HasEnds id }
    ensures low { result.low ≡ low_of id }
    ensures high { result.high ≡ high_of id }
{
    match id {
        0x3000..=0x3002 => Ends {
            low: -2000,
            high: 3000,
        },
        0x3003..=0x3005 => Ends {
            low: -2000,
            high: 3400,
        },
        0x3006..=0x300B => Ends {
            low: 30,
            high: 32767,
        },
        0x300C..=0x3029 => Ends {
            low: -32768,
            high: 32767,
        },
        0x4002..=0x4021 => Ends {
            low: 0,
            high: 20000,
        },
        0x4022..=0x4041 => Ends {
            low: 50,
            high: 20000,
        },
        _ => Ends {
            low: 0,
            high: 65535,
        },
    }
}

// A number for such a parameter, taken as the nearer end where it lies outside the parameter's range.
#[tactic(auto, using(crate::proofs::Ranges::at_low_end, crate::proofs::Ranges::at_nearer_end))]
fn clamped(id: u16, x: i32) -> i32
    requires { HasEnds id }
    ensures { result ≡ clamp_of id x }
{
    let ends = ends_of(id);
    x.clamp(ends.low, ends.high)
}

// Whether a number lies in the range of such a parameter.
fn is_inside(id: u16, x: i32) -> bool
    requires { HasEnds id }
    ensures { result ≡ inside_of id x }
{
    let ends = ends_of(id);
    ends.low <= x && x <= ends.high
}

// The settings with a value stored for the id, at the nearer end of the id's range where it lies outside; a value of
// another type than the id's, and an id that is read-only or unknown, change nothing: whether a set is refused is told
// by `parameter_of`, asked before.
pub fn set(mut s: Settings, id: u16, value: ParamValue) -> Settings
    ensures { result ≡ set_of s id value }
{
    let place = place_of(id);
    match value {
        ParamValue::Int8(x) => match place {
            Place::Int8(i) => s.i8s[i] = x,
            _ => {}
        },
        ParamValue::Uint8(x) => match place {
            Place::Uint8(i) => s.u8s[i] = x,
            _ => {}
        },
        ParamValue::Int16(x) => match place {
            Place::Int16(i) => s.i16s[i] = clamped(id, x as i32) as i16,
            _ => {}
        },
        ParamValue::Uint16(x) => match place {
            Place::Uint16(i) => s.u16s[i] = clamped(id, x as i32) as u16,
            _ => {}
        },
        ParamValue::Uint32(x) => match place {
            Place::Uint32(i) => s.u32s[i] = x,
            _ => {}
        },
        _ => {}
    }
    s
}

// The settings with one parameter at its default on a kind of board, brought into range; an id that is read-only or
// unknown, which `parameter_of` tells, changes nothing.
pub fn reset_one(s: Settings, kind: Kind, id: u16) -> Settings
    ensures { result ≡ reset_of kind s id }
{
    let default = get(defaults(kind), id);
    match default {
        Got::Value(value) => set(s, id, value),
        Got::ReadOnly(_) => s,
        Got::Unknown => s,
    }
}

// Whether every value lies in range; only int16 and uint16 parameters have a range narrower than their type.
pub fn in_range(s: Settings) -> bool
    ensures { result ≡ in_range_of s }
{
    for (i, x) in s.i16s.iter().enumerate() {
        if !is_inside(0x3000 + i as u16, *x as i32) {
            return false;
        }
    }
    for (i, x) in s.u16s.iter().enumerate() {
        if !is_inside(0x4000 + i as u16, *x as i32) {
            return false;
        }
    }
    true
}
