// What a line of a replay script prints that only looks at a machine, and what a read of its text line prints.
#![tactic(auto)]

ghost use Rattle.std.specs.Prelude.{◌≡◌, [], ◌∷◌, ◌++◌, take};
ghost use Rattle.script.specs.Printing.{page, typed, hex_of};
ghost use Rattle.speaking.specs.Speaking.{blank};
ghost use Rattle.looking.specs.Looking.{answer_line, framing_line, read_line, look_line};

use lines::Look;
use reading::{Line, LineRefusal};
use script::printing::Page;
use unit::Machine;

// The line of the bytes that a bus read found.
#[tactic(auto, using(script::proofs::Turns::typed_append), unfolding(script::specs::Printing::typed))]
fn bytes_line(found: &[u8], out: &mut [u8]) -> usize
    ensures { page out.new result ≡ typed (page out.old 0) (hex_of found.now ++ 10 ∷ []) }
{
    let mut line = Page::on(out);
    line.bytes(found);
    line.put(b'\n');
    line.at
}

// What a bus read finds.
fn read(m: Machine, count: usize, out: &mut [u8]) -> usize
    ensures { page out.new result ≡ typed (page out.old 0) (read_line m count) }
{
    let mut buffer = speaking::untouched();
    let found = &mut buffer[..speaking::within(count)];
    unit::bus_read(m, found);
    bytes_line(found, out)
}

// What a read of the text line prints.
// Kept: what was received and the scratch buffer are lent side by side; the payload is a part of one of them.
#[tactic(auto, unfolding(crate::specs::Looking::answer_line))]
pub fn answer<'a>(
    m: Machine,
    line: Result<Line, LineRefusal>,
    received: &'a [u8],
    scratch: &'a [u8],
    out: &mut [u8],
) -> usize
    ensures { page out.new result ≡ typed (page out.old 0) (answer_line line m.board.form received.now scratch.now) }
{
    match line {
        Ok(
            Line::Command {
                start,
                end,
                behind: _,
            },
        ) => {
            let payload = unit::payload(m, received, scratch, start, end);
            speaking::heard(line, payload, scratch, out)
        }
        Ok(Line::Switch { form: _, behind: _ }) | Err(_) => speaking::heard(
            line,
            &[],
            scratch,
            out,
        ),
    }
}

// What a framing prints.
fn framed(m: Machine, room: usize, out: &mut [u8]) -> usize
    ensures { page out.new result ≡ typed (page out.old 0) (framing_line m (take room blank)) }
{
    let mut buffer = speaking::untouched();
    let output = &mut buffer[..speaking::within(room)];
    let framed = unit::frame(m, output);
    speaking::framed(framed, output, out)
}

// What a line prints that changes nothing.
#[tactic(auto, unfolding(crate::specs::Looking::look_line))]
pub fn looked(m: Machine, look: Look, out: &mut [u8]) -> usize
    ensures { page out.new result ≡ typed (page out.old 0) (look_line m look) }
{
    match look {
        Look::Read { count } => read(m, count, out),
        Look::Frame { room } => framed(m, room, out),
        Look::Show => showing::state(m.board, out),
    }
}
