// The checksum over the settings: division by x^16 + x^12 + x^5 + 1, high bit first, from a start of 0xFFFF, with no
// final change.
#![tactic(auto)]

ghost use Rattle.std.specs.Prelude.{◌≡◌, ◌<◌};
ghost use Rattle.crc.specs.Division.{divided, along_bits, bits_of, continued_of, checksum_of};

// The powers below x^16 of the divisor.
const DIVISOR: u16 = 0x1021;

const START: u16 = 0xFFFF;

// The remainder once one bit more was divided.
fn divide_bit(left: u16, bit: u16) -> u16
    requires { bit < 2 }
    ensures { result ≡ divided left bit }
{
    let moved = left % 32768 * 2;
    if left / 32768 == bit {
        return moved;
    }
    moved ^ DIVISOR
}

// The remainder once the eight bits of a byte were divided, the high one first.
fn divide_byte(left: u16, b: u16) -> u16
    ensures { result ≡ along_bits left (bits_of b) }
{
    let left = divide_bit(left, b / 128 % 2);
    let left = divide_bit(left, b / 64 % 2);
    let left = divide_bit(left, b / 32 % 2);
    let left = divide_bit(left, b / 16 % 2);
    let left = divide_bit(left, b / 8 % 2);
    let left = divide_bit(left, b / 4 % 2);
    let left = divide_bit(left, b / 2 % 2);
    divide_bit(left, b % 2)
}

// The checksum of some bytes and of those behind them, from the checksum of the first: so a list can be walked in
// parts.
pub fn continued(from: u16, bytes: &[u8]) -> u16
    ensures { result ≡ continued_of from bytes.now }
{
    let mut left = from;
    for b in bytes {
        left = divide_byte(left, u16::from(*b));
    }
    left
}

// The checksum of bytes.
#[tactic(auto, unfolding(crate::specs::Division::checksum_of))]
pub fn checksum(bytes: &[u8]) -> u16
    ensures { result ≡ checksum_of bytes.now }
{
    continued(START, bytes)
}
