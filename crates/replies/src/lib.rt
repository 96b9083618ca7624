// The replies of the board, as the ICD's pages lay them out.
#![tactic(auto)]

ghost use Rattle.std.specs.Prelude.{◌≡◌, ◌++◌, take};
ghost use Rattle.wire.specs.Replies.{reply_of, laid_out};
ghost use Rattle.readings.specs.Readings.{raw_words, engineering_words};
ghost use Rattle.readings.specs.Packs.{packs, told_by};
ghost use Rattle.replies.specs.Layouts.{head, reserved, short_reply, faults_reply, housekeeping_reply, parameter_reply, channel_words, abf_byte, abf_reply, battery_reply};

use command::Header;
use readings::{Engineering, Raw};
use value::ValueBytes;
use wire::Reply;

// What a reply starts with: what its board is called by, the code that it answers, and its status.
#[derive(Clone, Copy)]
pub struct Head {
    pub board: Header,
    pub code: u8,
    pub stat: u8,
}

// The four channel words: of the channels on and then of those latched, 0 to 15 and then 16 to 31.
#[tactic(auto, unfolding(crate::specs::Layouts::channel_words))]
fn channel_words(on: u32, latched: u32) -> [u16; 4]
    ensures { result ≡ channel_words on latched }
{
    [
        (on % 65536) as u16,
        (on / 65536) as u16,
        (latched % 65536) as u16,
        (latched / 65536) as u16,
    ]
}

// The byte that tells whether the ABF is placed.
fn abf_byte(placed: bool) -> u8
    ensures { result ≡ abf_byte placed }
{
    if placed { 0xAB } else { 0x00 }
}

impl Head {
    // The 5-byte reply: the bytes that every reply starts with, and all of most replies.
    pub fn short(self) -> Reply
        ensures { result ≡ reply_of (short_reply self.board self.code self.stat) }
    {
        Reply::short(
            self.board.stid,
            self.board.ivid,
            self.code,
            self.board.bid,
            self.stat,
        )
    }

    // The 6 bytes that every longer reply starts with: a reserved byte stands behind STAT.
    fn longer(self) -> Reply
        ensures { result ≡ reply_of (laid_out (head self.board self.code self.stat ++ reserved)) }
    {
        self.short().append_bytes(&[0u8; 1])
    }

    // The reply of 0x42: the channel words, then the overcurrent count of each channel.
    // Kept: the sets of the channels on and latched stand apart, as in the page's two words each.
    pub fn faults(self, on: u32, latched: u32, counts: [u16; 32]) -> Reply
        ensures { result ≡ reply_of (faults_reply self.board self.code self.stat on latched counts) }
    {
        let four = channel_words(on, latched);
        self.longer().append_words(&four).append_words(&counts)
    }

    // The reply of 0x50, of raw readings and of nothing else: the first five of those that count, the channel words,
    // then the others.
    pub fn raw_housekeeping(self, on: u32, latched: u32, raws: [Raw; 130], count: usize) -> Reply
        ensures { result ≡ reply_of (housekeeping_reply self.board self.code self.stat on latched (take count (raw_words raws))) }
    {
        let four = channel_words(on, latched);
        let front = readings::append_raw(self.longer(), raws, count, 0, 5);
        readings::append_raw(front.append_words(&four), raws, count, 5, count)
    }

    // The reply of 0x52, of engineering readings and of nothing else, in the same layout.
    pub fn engineering_housekeeping(self, on: u32, latched: u32, units: [Engineering; 122]) -> Reply
        ensures { result ≡ reply_of (housekeeping_reply self.board self.code self.stat on latched (engineering_words units)) }
    {
        let four = channel_words(on, latched);
        let front = readings::append_engineering(self.longer(), units, 0, 5);
        readings::append_engineering(front.append_words(&four), units, 5, 122)
    }

    // The reply of 0x82, 0x84 and 0x86: the id, then as many bytes as the value has.
    pub fn parameter(self, id: u16, value: ValueBytes) -> Reply
        ensures { result ≡ reply_of (parameter_reply self.board self.code self.stat id (take value.len value.bytes)) }
    {
        let id_bytes = id.to_le_bytes();
        let bytes = value.bytes;
        self.longer()
            .append_bytes(&id_bytes)
            .append_bytes(wire::first(&bytes, value.len))
    }

    // The reply of 0x44: whether the ABF is placed, told twice.
    pub fn abf(self, placed: bool) -> Reply
        ensures { result ≡ reply_of (abf_reply self.board self.code self.stat placed) }
    {
        let told = abf_byte(placed);
        let both = [told, told];
        self.longer().append_bytes(&both)
    }

    // The reply of 0x60, of raw readings and of nothing else: those that count, in a row.
    pub fn raw_battery(self, raws: [Raw; 130], count: usize) -> Reply
        ensures { result ≡ reply_of (battery_reply self.board self.code self.stat (take count (raw_words raws))) }
    {
        readings::append_raw(self.longer(), raws, count, 0, count)
    }

    // The reply of 0x62, of engineering readings and the status words, in the same layout.
    pub fn engineering_battery(self, raws: [Raw; 130]) -> Reply
        ensures { result ≡ reply_of (battery_reply self.board self.code self.stat (told_by packs raws)) }
    {
        readings::append_packs(self.longer(), raws)
    }
}
