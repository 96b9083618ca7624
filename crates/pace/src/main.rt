// Runs the pattern of the speed measurement over the proved board, and prints a digest of all that it made;
// docs/SPEED.md describes both.
#![tactic(auto)]

mod run;

ghost use Rattle.std.specs.Prelude.{◌≤◌, length, take};
ghost use Rattle.std.specs.Io.KnownBytes.{Consumes};

use std::io::Read;

// Reads until the room is full or the input ends, and answers how many bytes came, which are the input's next ones;
// what cannot be read is the end.
// Kept: once more in `bench`, as in a library it would be the one function whose contract allows two answers to one
// input, which `single` excludes: what an input brings next, and where a read of it fails, is not among the arguments.
fn read_full<R: Read>(input: &mut R, room: &mut [u8]) -> usize
    ensures within { result ≤ length room.new }
    ensures came { Consumes (R.remaining input.old) (R.remaining input.new) (take result room.new) }
{
    let mut filled = 0;
    // Kept: `while`, as each read brings some bytes, and no count of reads is known.
    while filled < room.len() {
        match input.read(&mut room[filled..]) {
            Ok(0) | Err(_) => break,
            Ok(n) => filled += n,
        }
    }
    filled
}

// Reads one byte more than the longest line has, runs what it asks for and prints the digest, or `bad`; what cannot be
// written is let go.
fn main(rt: HostRuntime) {
    let mut input = [0; 13];
    let n = read_full(&mut rt.stdin(), &mut input);
    let _ = match pattern::asked_by(wire::first(&input, n)) {
        Some(run) => println!(rt; "digest {:08X}", run::digest_of(run)),
        None => println!(rt; "bad"),
    };
}
