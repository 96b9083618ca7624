// The settings as 268 bytes, from the lowest id to the highest: what the checksum is taken over, what is stored, and
// how it is read back.
#![tactic(auto)]

ghost use Rattle.std.specs.Prelude.{◌≡◌, ◌+◌, ◌*◌, ◌^◌, ◌≤◌, ◌<◌, length, take, drop, get_or};
ghost use Rattle.std.proofs.lemmas.List.Edits.{sets};
ghost use Rattle.settings.specs.Table.{ids};
ghost use Rattle.image.specs.Image.{parameter_bytes, image_of, settings_checksum, numbers_of, settings_of};
ghost use Rattle.image.specs.Room.{roomed};

use settings::{Got, Settings};
use value::ValueBytes;
use wire::Travels;

mod ids;

// The read/write id at a place among all of them, counted from the lowest.
fn id_at(place: usize) -> u16
    requires { place < 140 }
    ensures { result ≡ get_or ids place 0 }
{
    ids::IDS[place]
}

// The bytes of one parameter's value; of an id that is none there are no bytes.
fn parameter_bytes(s: Settings, id: u16) -> ValueBytes
    ensures { result ≡ roomed (parameter_bytes s id) }
{
    match settings::get(s, id) {
        Got::Value(v) => value::bytes(v),
        Got::ReadOnly(_) => ValueBytes {
            len: 0,
            bytes: [0; 8],
        },
        Got::Unknown => ValueBytes {
            len: 0,
            bytes: [0; 8],
        },
    }
}

// A value's bytes, laid into the image at a place.
fn put(image: &mut [u8], at: usize, v: ValueBytes)
    requires { (v.len ≤ 8) × (at + v.len ≤ length image.old) }
    ensures { image.new ≡ sets image.old at (take v.len v.bytes) }
{
    image[at..at + v.len].copy_from_slice(&v.bytes[..v.len]);
}

// The settings as bytes, one id after another.
pub fn bytes(s: Settings) -> [u8; 268]
    ensures { result ≡ image_of s }
{
    let mut image = [0u8; 268];
    let mut at = 0;
    for place in 0..140 {
        let v = parameter_bytes(s, id_at(place));
        put(&mut image, at, v);
        at += v.len;
    }
    image
}

// The checksum of the settings.
pub fn checksum(s: Settings) -> u16
    ensures { result ≡ settings_checksum s }
{
    crc::checksum(&bytes(s))
}

// As many numbers as asked for, one behind another, from a place of the image on.
fn numbers<T: Travels, const N: usize>(image: &[u8], at: usize) -> [T; N]
    requires { at + T.WIDTH * N < 2 ^ 64 }
    ensures { result ≡ numbers_of T.meaning T.WIDTH N (drop at image.now) }
{
    let mut values = [T::read_at(image, at); N];
    for (i, value) in values.iter_mut().enumerate() {
        *value = T::read_at(image, at + T::WIDTH * i);
    }
    values
}

// The settings whose image some bytes are. Nothing is brought into range: whether all values lie in range is asked of
// the settings.
pub fn read(image: &[u8]) -> Settings
    ensures { result ≡ settings_of image.now }
{
    Settings {
        u32s: numbers(image, 244),
        u16s: numbers(image, 108),
        i16s: numbers(image, 24),
        i8s: numbers(image, 0),
        u8s: numbers(image, 21),
    }
}
