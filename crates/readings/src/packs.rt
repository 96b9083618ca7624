// How 0x62 tells each measured word of a battery board.
ghost use Rattle.std.specs.Prelude.{◌≡◌, ◌<◌};
ghost use Rattle.readings.specs.Packs.{way_at, pack_way};

use crate::layout::{row_at, vip_row};
use crate::table::Row;

// A word is told by a row of Table 3-12, by the curve of Table 3-13, or, if it is a status word, as it is.
// Kept: three ways, each with an answer of its own; none is the lack of another.
#[derive(Clone, Copy)]
pub enum Way {
    ByRow(Row),
    ByCurve,
    AsItIs,
}

// The way of a word of a pack: three of a VIPD, the status, four cells and three temperatures.
fn pack_way(word: usize) -> Way
    ensures { result ≡ pack_way word }
{
    if word < 3 {
        return Way::ByRow(vip_row(word));
    }
    if word == 3 {
        return Way::AsItIs;
    }
    if word < 8 {
        return Way::ByRow(Row::VoltCell);
    }
    if word == 8 {
        return Way::ByRow(Row::BatTemp1);
    }
    Way::ByCurve
}

// The way of the measured word at a place: five words as on 0x52, the board's status, then packs of eleven words.
// argued: only `packs_told` calls it, for the places of its array
pub fn way_at(i: usize) -> Way
    requires { i < 39 }
    ensures { result ≡ way_at i }
{
    if i < 5 {
        return Way::ByRow(row_at(i));
    }
    if i == 5 {
        return Way::AsItIs;
    }
    pack_way((i - 6) % 11)
}
