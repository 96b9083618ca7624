// Which row of Table 3-12 a measured word of a distribution board goes by.
ghost use Rattle.std.specs.Prelude.{◌≡◌, ◌<◌};
ghost use Rattle.readings.specs.Layout.{vip_row, channel_row, row_at};

use crate::table::Row;

// The row of a word of the input's block, of a voltage domain's or of a pack's: its VOLT, its CURR or its POWE.
pub fn vip_row(word: usize) -> Row
    ensures { result ≡ vip_row word }
{
    match word {
        0 => Row::VipVolt,
        1 => Row::VipCurr,
        _ => Row::VipPowe,
    }
}

// The row of a word of a channel's block, which has dividers of its own.
// Kept: it and `vip_row` are two lists of the page; one function would be given the two rows in which they differ at
// each call, and is no plainer.
fn channel_row(word: usize) -> Row
    ensures { result ≡ channel_row word }
{
    match word {
        0 => Row::VipVolt,
        1 => Row::ChannelCurr,
        _ => Row::ChannelPowe,
    }
}

// The row of the measured word at a place: two words, then blocks of three, of which the channels' begin at word 26.
// argued: `convert_all` calls it for the places of its array, and `way_at` for the first five
pub fn row_at(i: usize) -> Row
    requires { i < 122 }
    ensures { result ≡ row_at i }
{
    if i == 0 {
        return Row::VoltBrdsup;
    }
    if i == 1 {
        return Row::PduTemp;
    }
    if i < 26 {
        return vip_row((i - 2) % 3);
    }
    channel_row((i - 26) % 3)
}
