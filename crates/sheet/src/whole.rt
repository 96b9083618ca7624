// A whole sheet.
ghost use Rattle.std.specs.Prelude.{◌≡◌};
ghost use Rattle.grammar.specs.Views.{refusal_of};
ghost use Rattle.sheet.specs.Form.{sheet_in};
ghost use Rattle.sheet.specs.Answers.{are_ticks, sheet_head, head_number};

use crate::head::{Head, read_head};
use crate::ticks::read_tick;

// The most bytes that a sheet may have.
const LONGEST: usize = 65536;

// Whether that many tick lines stand from a place on, and nothing behind them.
fn are_ticks(s: &[u8], first: usize, count: u32) -> bool
    ensures { result ≡ are_ticks count s.now first }
{
    let mut transfer = [0u8; 256];
    let mut at = first;
    for k in 0..count {
        let Ok(line) = read_tick(s, at, &mut transfer) else {
            return false;
        };
        at = line.next;
    }
    at == s.len()
}

// The head of a sheet that is of the form as a whole.
pub fn read(s: &[u8]) -> Option<Head>
    ensures answer { result ≡ sheet_head (sheet_in s.now) }
    ensures number { head_number result ≡ refusal_of (sheet_in s.now) }
{
    if LONGEST < s.len() {
        return None;
    }
    let head = read_head(s)?;
    if are_ticks(s, head.first, head.ticks) {
        Some(head)
    } else {
        None
    }
}
