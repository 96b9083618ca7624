// Runs the session sheet on standard input, and prints its transcript or why it is refused. Nothing is decided here:
// `session` and `transcript` say what is printed.
#![tactic(auto)]

ghost use Rattle.std.specs.Prelude.{◌≡◌, ◌≤◌, length, take};
ghost use Rattle.std.specs.Io.KnownBytes.{Consumes};
ghost use Rattle.sheet.specs.Form.{tick_line};
ghost use Rattle.session.specs.Sessions.{next_by};

use session::Session;
use std::io::Read;

// Writes what was printed into a buffer; what cannot be written is let go.
fn print(rt: &impl Print, out: &[u8], printed: usize) {
    let _ = rt.write_all(script::printing::shown(out, printed));
}

// Runs one tick and prints its line; the session is the one that the step leaves.
fn run_tick(rt: &impl Print, session: Session, sheet: &[u8]) -> Session
    ensures { result ≡ next_by (tick_line 256 sheet.now session.at) session }
{
    let mut out = [0u8; 4096];
    let stepped = session::step(session, sheet, &mut out);
    print(rt, &out, stepped.printed);
    stepped.session
}

// Opens a sheet, prints its first line or why it is refused, and runs its ticks.
fn run(rt: &impl Print, sheet: &[u8]) {
    let mut out = [0u8; 4096];
    match session::open(sheet, &mut out) {
        Ok(opened) => {
            print(rt, &out, opened.printed);
            let mut now = opened.session;
            for _ in 0..now.left {
                now = run_tick(rt, now, sheet);
            }
        }
        Err(refusal) => {
            let printed = transcript::refusal(Err(refusal), &mut out);
            print(rt, &out, printed);
        }
    }
}

// Reads until the room is full or the input ends, and answers how many bytes came, which are the input's next ones;
// what cannot be read is the end.
// Kept: once more in `pace`, as in a library it would be the one function whose contract allows two answers to one
// input, which `single` excludes: what an input brings next, and where a read of it fails, is not among the arguments.
fn read_full<R: Read>(input: &mut R, room: &mut [u8]) -> usize
    ensures within { result ≤ length room.new }
    ensures came { Consumes (R.remaining input.old) (R.remaining input.new) (take result room.new) }
{
    let mut filled = 0;
    // Kept: `while`, as each read brings some bytes, and no count of reads is known.
    while filled < room.len() {
        match input.read(&mut room[filled..]) {
            Ok(0) | Err(_) => break,
            Ok(n) => filled += n,
        }
    }
    filled
}

// Reads one byte more than a sheet may have, so that a longer one is known.
fn main(rt: HostRuntime) {
    let mut input = [0u8; 65537];
    let n = read_full(&mut rt.stdin(), &mut input);
    run(&rt, wire::first(&input, n));
}
