// Table 3-12, and what it makes of a word.
ghost use Rattle.std.specs.Prelude.{◌≡◌, ◌≤◌, pos, nat_abs, ◌+ℤ◌, ◌*ℤ◌};
ghost use Rattle.readings.specs.Readings.{raw_of};
ghost use Rattle.readings.specs.Table.{factors_of, is_vipd, number_of, engineering_of};

// The rows of the table that have numbers, by their fields. VIP CURR and VIP POWE are two rows each: one of the input,
// the outputs and the voltage domains, and one of the channels.
#[derive(Clone, Copy)]
pub enum Row {
    VoltBrdsup,
    PduTemp,
    PiuTemp,
    VipVolt,
    VipCurr,
    ChannelCurr,
    VipPowe,
    ChannelPowe,
    VoltCell,
    BatTemp1,
    VoltMppt,
    CurrMppt,
}

// The numbers of a row: what is added to the raw value, and what the sum is multiplied with and divided by.
#[derive(Clone, Copy)]
struct Factors {
    bias: i32,
    premul: u32,
    posdiv: u32,
}

// A line of the page.
fn line(bias: i32, premul: u32, posdiv: u32) -> Factors
    ensures { result ≡ record { bias = bias; premul = premul; posdiv = posdiv } }
{
    Factors {
        bias,
        premul,
        posdiv,
    }
}

// The numbers of a row.
fn factors_of(row: Row) -> Factors
    ensures { result ≡ factors_of row }
{
    match row {
        Row::VoltBrdsup => line(0, 1000, 819),
        Row::PduTemp => line(-1168, 220, 9),
        Row::PiuTemp => line(-868, 26400, 819),
        Row::VipVolt => line(0, 125, 128),
        Row::VipCurr => line(0, 3125, 10240),
        Row::ChannelCurr => line(0, 3125, 20480),
        Row::VipPowe => line(0, 3125, 3200),
        Row::ChannelPowe => line(0, 3125, 6400),
        Row::VoltCell => line(-512, 3, 2),
        Row::BatTemp1 => line(-1969, 75, 4),
        Row::VoltMppt => line(0, 2625, 128),
        Row::CurrMppt => line(-41, 625, 192),
    }
}

// Whether a row is for a field of a VIPD, whose words are signed.
fn is_vipd(row: Row) -> bool
    ensures { result ≡ is_vipd row }
{
    matches!(
        row,
        Row::VipVolt | Row::VipCurr | Row::ChannelCurr | Row::VipPowe | Row::ChannelPowe
    )
}

// The number that a word stands for.
// Kept: `vipd` is the truth value by which `number_of` reads the word; the word is there either way.
#[tactic(auto, unfolding(crate::specs::Table::number_of))]
fn number(word: u16, vipd: bool) -> i64
    ensures { result ≡ number_of vipd (raw_of word) }
{
    if vipd {
        return word.cast_signed() as i64;
    }
    word as i64
}

// What stands above the line of the exact fraction.
// argued: only `units` calls it, with the number of a word and the factors of a row
fn scaled(n: i64, bias: i32, premul: u32) -> i64
    requires { (nat_abs n ≤ 65536) × (premul ≤ 65536) }
    ensures { result ≡ pos premul *ℤ (n +ℤ bias) }
{
    let sum = n + (bias as i64);
    (premul as i64) * sum
}

// A word in the unit of its field, nearest and held.
pub fn units(word: u16, row: Row) -> i16
    ensures { result ≡ (engineering_of row (raw_of word)).0 }
{
    let f = factors_of(row);
    let n = number(word, is_vipd(row));
    let above = scaled(n, f.bias, f.premul);
    rounding::held(rounding::nearest(above, f.posdiv))
}
