// The whole number nearest to a fraction, halves away from zero, and its holding to the ends of int16. It is divided
// without the sign, so that one rule serves both sides of zero.
#![tactic(auto)]

ghost use Rattle.std.specs.Prelude.{◌≡◌, ◌<◌, nat_abs};
ghost use Rattle.rounding.specs.Rounding.{up, nearest, held};

// The whole units of a fraction that is not negative, and one more from half a unit on.
// argued: only `nearest` calls it, with a divisor above 0 that had 32 bits
fn rounded(n: u64, d: u64) -> u64
    requires { (0 < d) × (d < 4294967296) }
    ensures { result ≡ up n d }
{
    let whole = n / d;
    let part = n % d;
    if d <= 2 * part {
        return whole + 1;
    }
    whole
}

// The whole number nearest to n / d, halves away from zero.
// argued: a conversion calls it with a divisor of its table, none of which is 0, and with numbers far below 63 bits
pub fn nearest(n: i64, d: u32) -> i64
    requires { (0 < d) × (nat_abs n < 9223372036854775808) }
    ensures { result ≡ nearest n d }
{
    let units = rounded(n.unsigned_abs(), u64::from(d)) as i64;
    if n < 0 { -units } else { units }
}

// A number, or the end of int16 that it passes.
pub fn held(z: i64) -> i16
    ensures { result ≡ held z }
{
    z.clamp(i64::from(i16::MIN), i64::from(i16::MAX)) as i16
}
