// The temperature of a battery pack at a raw code, looked up in a table. Each entry is Table 3-13's line at its place.
#![tactic(auto)]

mod table;

ghost use Rattle.std.specs.Prelude.{◌≡◌, ◌<◌};
ghost use Rattle.temperature.specs.Temperature.{entry_of, temperature_of};

use table::TABLE;

// The table's entry at a place.
// argued: only `temperature` calls it, for places of the table
fn entry(i: usize) -> i16
    requires { i < 4096 }
    ensures { result ≡ entry_of i }
{
    TABLE[i]
}

// The temperature at a raw code, in hundredths of a degree. A code above 4095 has that of 4095.
#[tactic(auto, unfolding(crate::specs::Temperature::temperature_of))]
pub fn temperature(code: u16) -> i16
    ensures { result ≡ temperature_of code }
{
    entry(usize::from(code.min(4095)))
}
