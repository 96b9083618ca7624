// What the text line says: the frame of a reply, which is <rsp>, the reply, </rsp>, CR, LF, or the same of the echo of
// a switch. Functions on slices and a form.
#![tactic(auto)]

ghost use Rattle.std.specs.Prelude.{◌≡◌, ◌+◌, ◌≤◌, length};
ghost use Rattle.std.proofs.lemmas.List.Edits.{sets};
ghost use Rattle.hexadecimal.specs.Hex.{laid};
ghost use Rattle.hexadecimal.specs.Answers.{short_number};
ghost use Rattle.reading.specs.Lines.{switch_text};
ghost use Rattle.framing.specs.Framing.{reply_frame, written, due_text, framed_of, enclosed_held};
ghost use Rattle.framing.specs.Answers.{framed_number};
ghost use Rattle.framing.specs.declared.FrameRefusal.TheVariants.{OutputTooShort};

use hexadecimal::WriteRefusal;
use wire::Form;

// What the text line has to say: nothing, the reply, or the echo of a switch to a form.
// Kept: `Machine` is what a bench keeps, and theorems that docs/CLAIMS.md names speak of `Nothing`.
#[derive(Clone, Copy)]
pub enum Due {
    Nothing,
    Reply,
    Echo(Form),
}

// Why nothing was framed: the buffer has no room for the frame.
#[derive(Clone, Copy)]
pub enum FrameRefusal {
    OutputTooShort,
}

impl From<WriteRefusal> for FrameRefusal {
    ghost from_gives = { λ _ refusal. refusal ≡ OutputTooShort };

    fn from(_refusal: WriteRefusal) -> FrameRefusal {
        FrameRefusal::OutputTooShort
    }
}

// A text, at a place of a buffer.
// argued: called where the room was looked at before
// Kept: what is written and the buffer that it is lent stand side by side, as a struct of them would be one lending
// only.
fn lay(out: &mut [u8], at: usize, text: &[u8])
    requires { at + length text.now ≤ length out.old }
    ensures { out.new ≡ sets out.old at text.now }
{
    out[at..at + text.len()].copy_from_slice(text);
}

// A text, into the front of a buffer that has the room for it, and how many bytes it has.
fn copy(text: &[u8], out: &mut [u8]) -> Result<usize, FrameRefusal>
    ensures answer { result ≡ framed_of text.now (length out.old) }
    ensures held { out.new ≡ laid text.now out.old }
    ensures number { framed_number result ≡ short_number (length text.now) (length out.old) }
{
    if out.len() < text.len() {
        return Err(FrameRefusal::OutputTooShort);
    }
    lay(out, 0, text);
    Ok(text.len())
}

// A reply in a form, into the front of a buffer that has the room for it, and how many bytes it has there.
fn in_form(form: Form, reply: &[u8], out: &mut [u8]) -> Result<usize, FrameRefusal>
    ensures answer { result ≡ framed_of (written form reply.now) (length out.old) }
    ensures held { out.new ≡ laid (written form reply.now) out.old }
    ensures number { framed_number result ≡ short_number (length (written form reply.now)) (length out.old) }
{
    match form {
        Form::Raw => copy(reply, out),
        Form::Ascii => Ok(hexadecimal::write(reply, out)?),
    }
}

// The text of a switch.
fn switch_text(form: Form) -> &'static [u8]
    ensures { result.now ≡ switch_text form }
{
    match form {
        Form::Raw => b"<cfg:raw/>",
        Form::Ascii => b"<cfg:ascii/>",
    }
}

// The tags and the line's end around the n bytes that were written between them.
// argued: called where what was written between them left room for them
fn enclose(n: usize, out: &mut [u8])
    requires { n + 13 ≤ length out.old }
    ensures { out.new ≡ enclosed_held n out.old }
{
    lay(out, 0, b"<rsp>");
    lay(out, 5 + n, b"</rsp>\r\n");
}

// The frame of a reply in a form.
fn reply_frame(form: Form, reply: &[u8], out: &mut [u8]) -> Result<usize, FrameRefusal>
    ensures answer { result ≡ framed_of (reply_frame (written form reply.now)) (length out.old) }
    ensures held { out.new ≡ laid (reply_frame (written form reply.now)) out.old }
    ensures number { framed_number result ≡ short_number (length (reply_frame (written form reply.now))) (length out.old) }
{
    let room = out.len();
    if room < 13 {
        return Err(FrameRefusal::OutputTooShort);
    }
    let n = in_form(form, reply, &mut out[5..room - 8])?;
    enclose(n, out);
    Ok(n + 13)
}

// Writes what is due into the front of a lent buffer: a frame, or nothing. Where the buffer is too short for the frame
// it keeps what it held. The text of a switch is echoed as it is, in either form.
pub fn frame(due: Due, form: Form, reply: &[u8], out: &mut [u8]) -> Result<usize, FrameRefusal>
    ensures answer { result ≡ framed_of (due_text due form reply.now) (length out.old) }
    ensures held { out.new ≡ laid (due_text due form reply.now) out.old }
    ensures number { framed_number result ≡ short_number (length (due_text due form reply.now)) (length out.old) }
{
    match due {
        Due::Nothing => Ok(0),
        Due::Reply => reply_frame(form, reply, out),
        Due::Echo(to) => reply_frame(Form::Raw, switch_text(to), out),
    }
}
