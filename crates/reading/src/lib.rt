// A read of the text line: the form switch, what else it answers, and the payload that it hands on. Functions on slices
// and a form.
#![tactic(auto)]

ghost use Rattle.std.specs.Prelude.{◌≡◌, length, Some};
ghost use Rattle.hexadecimal.specs.Hex.{payload_of, held_after};
ghost use Rattle.hexadecimal.specs.Answers.{payload_number};
ghost use Rattle.frames.specs.Frames.{frame_of};
ghost use Rattle.reading.specs.Lines.{switch_of, part, payload_at, ascii_line, command_line, command_held, line_of, line_held, payload_in};
ghost use Rattle.reading.specs.Answers.{line_number, line_tells, place_behind, command_number, reading_number};

use frames::{Frame, scan};
use hexadecimal::PayloadRefusal;
use wire::Form;

// The most received bytes that a payload may have, in either form.
const MOST: usize = 256;

// What a frame on the text line is. A command's payload lies from start up to end, of what was received in raw form and
// of the scratch buffer in ASCII form; behind is the place after the closing tag.
#[derive(Clone, Copy)]
pub enum Line {
    Command {
        start: usize,
        end: usize,
        behind: usize,
    },
    Switch {
        form: Form,
        behind: usize,
    },
}

// Why a read of the text line answers neither: there is no frame, or what is wrong with the payload of the one that
// ends at the place behind.
#[derive(Clone, Copy)]
pub enum LineRefusal {
    NoFrame,
    TooLong { behind: usize },
    NotOfForm { behind: usize },
    ScratchTooShort { behind: usize },
}

// The form that a payload switches to: only the exact text is a switch.
fn switch_of(payload: &[u8]) -> Option<Form>
    ensures { result ≡ switch_of payload.now }
{
    if payload == b"<cfg:raw/>".as_slice() {
        return Some(Form::Raw);
    }
    if payload == b"<cfg:ascii/>".as_slice() {
        return Some(Form::Ascii);
    }
    None
}

// A payload in ASCII form, decoded into the scratch buffer.
#[tactic(auto, using(crate::proofs::Numbers::ascii_number), unfolding(crate::specs::Lines::ascii_line))]
fn ascii_line(payload: &[u8], behind: usize, scratch: &mut [u8]) -> Result<Line, LineRefusal>
    ensures answer { result ≡ ascii_line behind payload.now (length scratch.old) }
    ensures held { scratch.new ≡ held_after (payload_of payload.now) scratch.old }
    ensures number { line_number result ≡ payload_number payload.now (length scratch.old) }
    ensures place { line_tells result ≡ Some behind }
{
    match hexadecimal::read(payload, scratch) {
        Ok(n) => Ok(Line::Command {
            start: 0,
            end: n,
            behind,
        }),
        Err(PayloadRefusal::NotOfForm) => Err(LineRefusal::NotOfForm { behind }),
        Err(PayloadRefusal::TooShort) => Err(LineRefusal::ScratchTooShort { behind }),
    }
}

// A frame's payload that is no switch.
#[tactic(auto, unfolding(crate::specs::Lines::command_line, crate::specs::Lines::command_held, crate::specs::Answers::command_number, hexadecimal::specs::Answers::payload_number))]
fn command_line(
    form: Form,
    received: &[u8],
    frame: Frame,
    scratch: &mut [u8],
) -> Result<Line, LineRefusal>
    ensures answer { result ≡ command_line form (payload_at frame received.now) frame (length scratch.old) }
    ensures held { scratch.new ≡ command_held form (payload_at frame received.now) scratch.old }
    ensures number { line_number result ≡ command_number form (payload_at frame received.now) (length scratch.old) }
    ensures place { line_tells result ≡ Some frame.behind }
{
    let Frame { start, end, behind } = frame;
    let payload = part(received, start, end);
    if payload.len() > MOST {
        return Err(LineRefusal::TooLong { behind });
    }
    match form {
        Form::Raw => Ok(Line::Command { start, end, behind }),
        Form::Ascii => ascii_line(payload, behind, scratch),
    }
}

// Reads what was received: a command's payload, a switch of the form, or why there is neither. The scratch buffer is
// written only where a payload in ASCII form is handed on.
#[tactic(auto, unfolding(crate::specs::Lines::line_of, crate::specs::Lines::line_held, crate::specs::Lines::switch_of, crate::specs::Answers::reading_number))]
pub fn read(form: Form, received: &[u8], scratch: &mut [u8]) -> Result<Line, LineRefusal>
    ensures answer { result ≡ line_of form received.now (length scratch.old) }
    ensures held { scratch.new ≡ line_held form received.now scratch.old }
    ensures number { line_number result ≡ reading_number form received.now (length scratch.old) }
    ensures place { line_tells result ≡ place_behind (frame_of received.now) }
{
    let frame = scan(received).ok_or(LineRefusal::NoFrame)?;
    let behind = frame.behind;
    match switch_of(part(received, frame.start, frame.end)) {
        Some(new) => Ok(Line::Switch { form: new, behind }),
        None => command_line(form, received, frame, scratch),
    }
}

// The bytes from start up to end, as far as they are there.
// Kept: README's table has `payload(m, received, scratch, start, end)`, and any two ends are answered.
#[tactic(auto, unfolding(crate::specs::Lines::part))]
fn part(s: &[u8], start: usize, end: usize) -> &[u8]
    ensures { result.now ≡ part start end s.now }
{
    wire::first(wire::rest(s, start), end.saturating_sub(start))
}

// The payload handed on: in raw form a part of what was received, in ASCII form a part of the scratch buffer. Ends that
// do not fit are cut.
pub fn payload<'a>(
    form: Form,
    received: &'a [u8],
    scratch: &'a [u8],
    start: usize,
    end: usize,
) -> &'a [u8]
    ensures { result.now ≡ payload_in form received.now scratch.now start end }
{
    match form {
        Form::Raw => part(received, start, end),
        Form::Ascii => part(scratch, start, end),
    }
}
