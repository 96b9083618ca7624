// The line that says which run is asked for.
ghost use Rattle.std.specs.Prelude.{◌≡◌};
ghost use Rattle.pattern.specs.Line.{number_of, asked_of};

use crate::kind::{RunKind, kinds_by};

// A run: the kinds of its ticks, and how many they are.
#[derive(Clone, Copy)]
pub struct Run {
    pub kinds: RunKind,
    pub count: u64,
}

// The most digits that a number of ticks has.
const MOST_DIGITS: usize = 9;

// The number that decimal digits make; of more than nine the last nine count.
fn number(digits: &[u8]) -> Option<u64>
    ensures { result ≡ number_of 0 digits.now }
{
    let mut n = 0;
    for c in digits {
        if !c.is_ascii_digit() {
            return None;
        }
        n = n % 100000000 * 10 + (*c - b'0') as u64;
    }
    Some(n)
}

// The run that a line asks for, where it is of the form: a kind, a space, one to nine digits and LF.
pub fn asked_by(line: &[u8]) -> Option<Run>
    ensures { result ≡ asked_of line.now }
{
    match line {
        [letter, b' ', digits @ .., b'\n'] if !digits.is_empty() && digits.len() <= MOST_DIGITS => {
            let kinds = kinds_by(*letter)?;
            let count = number(digits)?;
            Some(Run { kinds, count })
        }
        _ => None,
    }
}
