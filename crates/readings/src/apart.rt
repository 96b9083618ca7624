// The two kinds of reading. What is inside them can be named in this file alone. A raw reading comes of a word that was
// measured, or is the 0 before any. An engineering one comes of a raw one by Table 3-12, or by Table 3-13 for the
// temperature of a pack, and of nothing else that leaves this file; and it goes into the bytes of a reply and nowhere
// else.
ghost use Rattle.std.specs.Prelude.{◌≡◌, min, take, drop};
ghost use Rattle.wire.specs.Replies as wire-replies;
ghost use Rattle.readings.specs.Readings.{none_measured, measured_as, raw_words, engineering_words};
ghost use Rattle.readings.specs.Table.{engineering_of};
ghost use Rattle.readings.specs.Layout.{layout, converted_by};
ghost use Rattle.readings.specs.Packs.{packs, pack_temperature, word_by, told_by};
ghost use Rattle.wire.specs.Numbers.{pattern};

use crate::layout::row_at;
use crate::packs::{Way, way_at};
use crate::table::{Row, units};
use wire::Reply;

// A word as it was measured.
#[derive(Clone, Copy)]
pub struct Raw(u16);

// A whole number of the unit of its field.
#[derive(Clone, Copy)]
pub struct Engineering(i16);

// The raw readings before any words came: all 0.
pub fn none_measured() -> [Raw; 130]
    ensures { result ≡ none_measured }
{
    [Raw(0); 130]
}

// The raw readings of words that came, as many as there is room for; behind them the room is 0.
pub fn measured(words: &[u16]) -> [Raw; 130]
    ensures { result ≡ measured_as words.now }
{
    let mut raws = none_measured();
    for (i, word) in words[..words.len().min(130)].iter().enumerate() {
        raws[i] = Raw(*word);
    }
    raws
}

// The words that were measured.
// Kept: a loop and no `map` of the array, which took six times as long for the readings of a board.
pub fn words(raws: [Raw; 130]) -> [u16; 130]
    ensures { result ≡ raw_words raws }
{
    let mut words = [0u16; 130];
    for (i, word) in words.iter_mut().enumerate() {
        *word = raws[i].0;
    }
    words
}

// A raw reading in the unit of its field, by the field's row of Table 3-12.
pub fn convert(raw: Raw, row: Row) -> Engineering
    ensures { result ≡ engineering_of row raw }
{
    Engineering(units(raw.0, row))
}

// A raw reading of BAT_TEMP2 or BAT_TEMP3 in hundredths of a degree, by the curve of Table 3-13.
#[tactic(auto, unfolding(crate::specs::Packs::pack_temperature))]
pub fn pack_temperature(raw: Raw) -> Engineering
    ensures { result ≡ pack_temperature raw }
{
    Engineering(temperature::temperature(raw.0))
}

// The raw readings of a distribution board in the units of their fields, each by the row of its place.
pub fn convert_all(raws: [Raw; 130]) -> [Engineering; 122]
    ensures { result ≡ converted_by layout raws }
{
    let mut readings = [Engineering(0); 122];
    for (i, reading) in readings.iter_mut().enumerate() {
        *reading = convert(raws[i], row_at(i));
    }
    readings
}

// The word of an engineering reading on the wire.
fn pattern_of(reading: Engineering) -> u16
    ensures { result ≡ pattern 2 reading.0 }
{
    reading.0.cast_unsigned()
}

// The words of engineering readings on the wire.
// Kept: a loop and no `map` of the array, as in `words`.
fn patterns(readings: [Engineering; 122]) -> [u16; 122]
    ensures { result ≡ engineering_words readings }
{
    let mut words = [0u16; 122];
    for (i, word) in words.iter_mut().enumerate() {
        *word = pattern_of(readings[i]);
    }
    words
}

// A reply with raw readings behind what it shows: of those that count, the ones from one place to before another.
// Kept: how many readings count goes by the kind of board, and the array is that of the board with the most; the two
// come from the profile and from the board, and meet here.
pub fn append_raw(reply: Reply, raws: [Raw; 130], count: usize, from: usize, to: usize) -> Reply
    ensures { result ≡ wire-replies.after reply (wire-replies.words (drop from (take to (take count (raw_words raws))))) }
{
    let words = words(raws);
    let counted = wire::first(&words, count);
    reply.append_words(wire::rest(wire::first(counted, to), from))
}

// A reply with engineering readings behind what it shows: the ones from one place to before another.
pub fn append_engineering(
    reply: Reply,
    readings: [Engineering; 122],
    from: usize,
    to: usize,
) -> Reply
    ensures { result ≡ wire-replies.after reply (wire-replies.words (drop from (take to (engineering_words readings)))) }
{
    let words = patterns(readings);
    reply.append_words(wire::rest(wire::first(&words, to), from))
}

// The word that 0x62 tells of a raw reading, in the way of its field.
#[tactic(auto, unfolding(crate::specs::Packs::word_by))]
fn told(raw: Raw, way: Way) -> u16
    ensures { result ≡ word_by way raw }
{
    match way {
        Way::ByRow(row) => pattern_of(convert(raw, row)),
        Way::ByCurve => pattern_of(pack_temperature(raw)),
        Way::AsItIs => raw.0,
    }
}

// The words that 0x62 tells of the raw readings of a battery board, each in the way of its place.
fn packs_told(raws: [Raw; 130]) -> [u16; 39]
    ensures { result ≡ told_by packs raws }
{
    let mut words = [0; 39];
    for (i, word) in words.iter_mut().enumerate() {
        *word = told(raws[i], way_at(i));
    }
    words
}

// A reply with the readings of a battery board behind what it shows, as 0x62 tells them.
pub fn append_packs(reply: Reply, raws: [Raw; 130]) -> Reply
    ensures { result ≡ wire-replies.after reply (wire-replies.words (told_by packs raws)) }
{
    let words = packs_told(raws);
    reply.append_words(&words)
}
