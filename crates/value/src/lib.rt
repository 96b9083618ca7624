// A parameter's value as it travels: the ten types of the ICD's Table 3-24.
#![tactic(auto)]

ghost use Rattle.std.specs.Prelude.{◌≡◌, ◌<◌, ◌^◌};
ghost use Rattle.value.specs.Types.{width, type_of};
ghost use Rattle.value.specs.Values.{spelt, value_bytes, read_of};
ghost use Rattle.value.specs.Answers.{read_number, value_number};

use wire::Travels;

// A type of Table 3-24.
#[derive(Clone, Copy)]
pub enum ValueType {
    Int8,
    Uint8,
    Int16,
    Uint16,
    Int32,
    Uint32,
    Float,
    Int64,
    Uint64,
    Double,
}

// A value that keeps its type.
#[derive(Clone, Copy)]
pub enum ParamValue {
    Int8(i8),
    Uint8(u8),
    Int16(i16),
    Uint16(u16),
    Int32(i32),
    Uint32(u32),
    Float(f32),
    Int64(i64),
    Uint64(u64),
    Double(f64),
}

// A value's bytes: the first `len` of them, the rest 0.
// Kept: an array with a length beside it, since the board has no heap and the bytes behind the length are 0.
#[derive(Clone, Copy)]
pub struct ValueBytes {
    pub len: usize,
    pub bytes: [u8; 8],
}

// Why the front of some bytes holds no value of a type.
#[derive(Clone, Copy)]
pub enum ValueRefusal {
    TooShort,
    NotANumber,
}

// How many bytes a value of a type has.
#[tactic(auto, unfolding(crate::specs::Types::width))]
pub fn width(t: ValueType) -> usize
    ensures { result ≡ width t }
{
    match t {
        ValueType::Int8 => 1,
        ValueType::Uint8 => 1,
        ValueType::Int16 => 2,
        ValueType::Uint16 => 2,
        ValueType::Int32 => 4,
        ValueType::Uint32 => 4,
        ValueType::Float => 4,
        ValueType::Int64 => 8,
        ValueType::Uint64 => 8,
        ValueType::Double => 8,
    }
}

// The type that a value keeps.
pub fn type_of(v: ParamValue) -> ValueType
    ensures { result ≡ type_of v }
{
    match v {
        ParamValue::Int8(_) => ValueType::Int8,
        ParamValue::Uint8(_) => ValueType::Uint8,
        ParamValue::Int16(_) => ValueType::Int16,
        ParamValue::Uint16(_) => ValueType::Uint16,
        ParamValue::Int32(_) => ValueType::Int32,
        ParamValue::Uint32(_) => ValueType::Uint32,
        ParamValue::Float(_) => ValueType::Float,
        ParamValue::Int64(_) => ValueType::Int64,
        ParamValue::Uint64(_) => ValueType::Uint64,
        ParamValue::Double(_) => ValueType::Double,
    }
}

// The number that a value's bytes spell, and that they hold it.
#[tactic(auto, unfolding(crate::specs::Types::width, crate::specs::Values::spelt))]
fn spelt(v: ParamValue) -> u64
    ensures { (result ≡ spelt v) × (result < 256 ^ width (type_of v)) }
{
    match v {
        ParamValue::Int8(x) => x.cast_unsigned() as u64,
        ParamValue::Uint8(x) => x as u64,
        ParamValue::Int16(x) => x.cast_unsigned() as u64,
        ParamValue::Uint16(x) => x as u64,
        ParamValue::Int32(x) => x.cast_unsigned() as u64,
        ParamValue::Uint32(x) => x as u64,
        ParamValue::Float(x) => wire::float_bits32(x) as u64,
        ParamValue::Int64(x) => x.cast_unsigned(),
        ParamValue::Uint64(x) => x,
        ParamValue::Double(x) => wire::float_bits64(x),
    }
}

// A value's bytes, the lowest first.
pub fn bytes(v: ParamValue) -> ValueBytes
    ensures { result ≡ value_bytes v }
{
    ValueBytes {
        len: width(type_of(v)),
        bytes: spelt(v).to_le_bytes(),
    }
}

// The value of a type at the front of some bytes; those past it are ignored.
pub fn read(t: ValueType, s: &[u8]) -> Result<ParamValue, ValueRefusal>
    ensures value { result ≡ read_of t s.now }
    ensures number { read_number result ≡ value_number t s.now }
{
    if s.len() < width(t) {
        return Err(ValueRefusal::TooShort);
    }
    match t {
        ValueType::Int8 => Ok(ParamValue::Int8(i8::read_at(s, 0))),
        ValueType::Uint8 => Ok(ParamValue::Uint8(u8::read_at(s, 0))),
        ValueType::Int16 => Ok(ParamValue::Int16(i16::read_at(s, 0))),
        ValueType::Uint16 => Ok(ParamValue::Uint16(u16::read_at(s, 0))),
        ValueType::Int32 => Ok(ParamValue::Int32(i32::read_at(s, 0))),
        ValueType::Uint32 => Ok(ParamValue::Uint32(u32::read_at(s, 0))),
        ValueType::Float => match wire::float_of32(u32::read_at(s, 0)) {
            Some(x) => Ok(ParamValue::Float(x)),
            None => Err(ValueRefusal::NotANumber),
        },
        ValueType::Int64 => Ok(ParamValue::Int64(i64::read_at(s, 0))),
        ValueType::Uint64 => Ok(ParamValue::Uint64(u64::read_at(s, 0))),
        ValueType::Double => match wire::float_of64(u64::read_at(s, 0)) {
            Some(x) => Ok(ParamValue::Double(x)),
            None => Err(ValueRefusal::NotANumber),
        },
    }
}
