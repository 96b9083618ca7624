// Runs a replay script from standard input over the proved board, and prints what it then holds. A test instrument.
#![tactic(auto)]

use handling::Bench;
use std::io::Read;

// The bench, and how much of a line was taken from the input, unless the line is too long.
#[derive(Clone, Copy)]
struct Turn {
    bench: Bench,
    filled: Option<usize>,
}

// Runs one line and writes what it prints; what cannot be written is let go.
// argued: an instrument; what it prints is compared line by line with the second program
fn run_one(rt: &impl Print, bench: Bench, line: &[u8]) -> Bench {
    let mut held = [0u8; 4096];
    let mut out = [0u8; 4096];
    let asked = lines::asks(line, &mut held);
    let ran = trial::run(bench, asked, &held, &mut out);
    let _ = rt.write_all(script::printing::shown(&out, ran.printed));
    ran.bench
}

// Runs the lines that a chunk of input ends, and keeps the piece behind the last of them.
// argued: an instrument; what it prints is compared line by line with the second program
fn run_chunk(rt: &impl Print, chunk: &[u8], line: &mut [u8; 4096], turn: &mut Turn) {
    for b in chunk {
        if *b == b'\n' {
            turn.bench = run_one(rt, turn.bench, script::reading::line_of(line, turn.filled));
            turn.filled = Some(0);
        } else {
            turn.filled = kept(line, turn.filled, *b);
        }
    }
}

// Puts one more byte of a line behind what was filled; a line that the buffer cannot hold is too long.
// argued: an instrument; what it prints is compared line by line with the second program
fn kept(line: &mut [u8; 4096], filled: Option<usize>, b: u8) -> Option<usize> {
    let at = filled?;
    if at >= line.len() {
        return None;
    }
    line[at] = b;
    Some(at + 1)
}

// Reads once, runs the lines that came, and says whether there may be more; with nothing more to read, or what cannot
// be read, there is not.
// argued: an instrument; what it prints is compared line by line with the second program
fn run_some(
    rt: &impl Print,
    input: &mut impl Read,
    line: &mut [u8; 4096],
    turn: &mut Turn,
) -> bool {
    let mut chunk = [0u8; 65536];
    let n = input.read(&mut chunk).unwrap_or(0);
    run_chunk(rt, &chunk[..n], line, turn);
    n > 0
}

// A last piece without a line end is bad.
fn finish(rt: &impl Print, filled: Option<usize>) {
    if filled != Some(0) {
        let _ = rt.write_all(b"bad\n");
    }
}

// Runs the script to its end. A proved loop has to end, and nothing says that an input does: the count of turns is one
// that no run uses up.
fn main(rt: HostRuntime) {
    let mut input = rt.stdin();
    let mut line = [0u8; 4096];
    let mut turn = Turn {
        bench: handling::none(),
        filled: Some(0),
    };
    for _ in 0..u64::MAX {
        if !run_some(&rt, &mut input, &mut line, &mut turn) {
            break;
        }
    }
    finish(&rt, turn.filled);
}
