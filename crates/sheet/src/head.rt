// What stands before the ticks of a sheet.
ghost use Rattle.std.specs.Prelude.{◌≡◌};
ghost use Rattle.grammar.specs.Views.{seen_next, seen, refusal_of};
ghost use Rattle.sheet.specs.Form.{count, gap, channels_from, channel_list, channel_set, head};
ghost use Rattle.sheet.specs.Answers.{head_of, head_number};

use grammar::{Found, literal, read_number};

// The profile's parts, how many ticks there are, and the place of the first.
#[derive(Clone, Copy)]
pub struct Head {
    pub bid: u8,
    pub fitted: u32,
    pub forced: u32,
    pub ticks: u32,
    pub first: usize,
}

// A word, a number of at most a limit, and the line's end.
#[tactic(auto, using(crate::proofs::Parts::text_one), unfolding(crate::specs::Form::count))]
fn read_count(s: &[u8], at: usize, word: &[u8], limit: u32) -> Option<Found<u32>>
    ensures { seen result ≡ count word.now limit s.now at }
{
    let behind = literal(s, at, word)?;
    let Found { value, next } = read_number(s, behind, limit)?;
    let end = literal(s, next, b"\n")?;
    Some(Found { value, next: end })
}

// What stands behind a channel: a space where others follow, and the line's end where none does.
#[tactic(auto, using(crate::proofs::Parts::gap_last, crate::proofs::Parts::gap_more))]
fn read_gap(s: &[u8], at: usize, left: u32) -> Option<usize>
    ensures { seen_next result ≡ gap left s.now at }
{
    if left == 0 {
        return literal(s, at, b"\n");
    }
    literal(s, at, b" ")
}

// So many channels that rise, with the line's end behind the last, as a set. A count of 0 reads nothing: `empty_list`
// is for that.
fn read_channels(s: &[u8], at: usize, count: u32) -> Option<Found<u32>>
    ensures { seen result ≡ channels_from count 0 0 s.now at }
{
    let mut set: u32 = 0;
    let mut least: u32 = 0;
    let mut i = at;
    for k in 0..count {
        let Found { value: c, next } = read_number(s, i, 31)?;
        if c < least {
            return None;
        }
        i = read_gap(s, next, count - k - 1)?;
        set = channels::with_channel(set, c as u8);
        least = c + 1;
    }
    Some(Found {
        value: set,
        next: i,
    })
}

// A count of channels, and on a line of their own that many of them.
#[tactic(auto, using(crate::proofs::Parts::list_some), unfolding(crate::specs::Form::channel_set))]
fn read_set(s: &[u8], at: usize, word: &[u8]) -> Option<Found<u32>>
    ensures { seen result ≡ channel_set word.now s.now at }
{
    let Found { value: count, next } = read_count(s, at, word, 32)?;
    if count == 0 {
        return empty_list(s, next);
    }
    read_channels(s, next, count)
}

// The line of an empty list.
#[tactic(auto, using(crate::proofs::Parts::text_one), unfolding(crate::specs::Form::channel_list))]
fn empty_list(s: &[u8], at: usize) -> Option<Found<u32>>
    ensures { seen result ≡ channel_list 0 s.now at }
{
    let next = literal(s, at, b"\n")?;
    Some(Found { value: 0, next })
}

// All that stands before the ticks.
#[tactic(auto, unfolding(crate::specs::Form::head))]
pub fn read_head(s: &[u8]) -> Option<Head>
    ensures answer { result ≡ head_of (head s.now 0) }
    ensures number { head_number result ≡ refusal_of (head s.now 0) }
{
    let bid = read_count(s, 0, b"board ", 255)?;
    let fitted = read_set(s, bid.next, b"fitted ")?;
    let forced = read_set(s, fitted.next, b"forced ")?;
    let ticks = read_count(s, forced.next, b"ticks ", 4096)?;
    Some(Head {
        bid: (bid.value % 256) as u8,
        fitted: fitted.value,
        forced: forced.value,
        ticks: ticks.value,
        first: ticks.next,
    })
}
