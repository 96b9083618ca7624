// What a read of the text line and a framing print, each with the whole of the buffer that was lent, and that buffer
// before it is lent.
#![tactic(auto)]

ghost use Rattle.std.specs.Prelude.{◌≡◌, min, ◌++◌};
ghost use Rattle.script.specs.Printing.{page, typed, field_of};
ghost use Rattle.speaking.specs.Speaking.{form_name, command_text, line_text, whole_text, heard_line, framed_text, framed_line, blank};

use framing::FrameRefusal;
use reading::{Line, LineRefusal};
use script::printing::Page;
use wire::Form;

// The name of a form.
fn form_name(line: &mut Page, form: Form)
    ensures same_reference { line.new.out.ghost_name ≡ line.old.out.ghost_name }
    ensures typed { page line.new.out.now line.new.at ≡ typed (page line.old.out.now line.old.at) (form_name form) }
{
    match form {
        Form::Raw => line.text(b"form raw"),
        Form::Ascii => line.text(b"form ascii"),
    }
}

// A word, and a number behind it.
#[tactic(auto, using(script::proofs::Turns::typed_append))]
fn told(line: &mut Page, what: &[u8], n: usize)
    ensures same_reference { line.new.out.ghost_name ≡ line.old.out.ghost_name }
    ensures typed { page line.new.out.now line.new.at ≡ typed (page line.old.out.now line.old.at) (what.now ++ field_of 4 n) }
{
    line.text(what);
    line.field(n as u64, 4);
}

// A command's place, and its payload behind it.
#[tactic(auto, using(script::proofs::Turns::typed_append), unfolding(script::specs::Printing::typed, crate::specs::Speaking::command_text))]
fn command(line: &mut Page, behind: usize, payload: &[u8])
    ensures same_reference { line.new.out.ghost_name ≡ line.old.out.ghost_name }
    ensures typed { page line.new.out.now line.new.at ≡ typed (page line.old.out.now line.old.at) (command_text behind payload.now) }
{
    told(line, b"command", behind);
    line.string(payload);
}

// A form's name, and the place behind the switch to it.
#[tactic(auto, using(script::proofs::Turns::typed_append))]
fn switched(line: &mut Page, form: Form, behind: usize)
    ensures same_reference { line.new.out.ghost_name ≡ line.old.out.ghost_name }
    ensures typed { page line.new.out.now line.new.at ≡ typed (page line.old.out.now line.old.at) (form_name form ++ field_of 4 behind) }
{
    form_name(line, form);
    line.field(behind as u64, 4);
}

// What a read answers.
#[tactic(auto, unfolding(crate::specs::Speaking::line_text))]
fn answer(line: &mut Page, heard: Result<Line, LineRefusal>, payload: &[u8])
    ensures same_reference { line.new.out.ghost_name ≡ line.old.out.ghost_name }
    ensures typed { page line.new.out.now line.new.at ≡ typed (page line.old.out.now line.old.at) (line_text heard payload.now) }
{
    match heard {
        Ok(
            Line::Command {
                start: _,
                end: _,
                behind,
            },
        ) => command(line, behind, payload),
        Ok(Line::Switch { form, behind }) => switched(line, form, behind),
        Err(LineRefusal::NoFrame) => line.text(b"refused 10"),
        Err(LineRefusal::TooLong { behind }) => told(line, b"refused 11", behind),
        Err(LineRefusal::NotOfForm { behind }) => told(line, b"refused 12", behind),
        Err(LineRefusal::ScratchTooShort { behind }) => told(line, b"refused 13", behind),
    }
}

// A space, the whole of a lent buffer, and the line's end.
#[tactic(auto, using(script::proofs::Turns::typed_append), unfolding(script::specs::Printing::typed))]
fn whole(line: &mut Page, buffer: &[u8])
    ensures same_reference { line.new.out.ghost_name ≡ line.old.out.ghost_name }
    ensures typed { page line.new.out.now line.new.at ≡ typed (page line.old.out.now line.old.at) (whole_text buffer.now) }
{
    line.string(buffer);
    line.put(b'\n');
}

// The line of a read of the text line.
#[tactic(auto, using(script::proofs::Turns::typed_append), unfolding(crate::specs::Speaking::heard_line))]
pub fn heard(
    line: Result<Line, LineRefusal>,
    payload: &[u8],
    scratch: &[u8],
    out: &mut [u8],
) -> usize
    ensures { page out.new result ≡ typed (page out.old 0) (heard_line line payload.now scratch.now) }
{
    let mut page = Page::on(out);
    answer(&mut page, line, payload);
    whole(&mut page, scratch);
    page.at
}

// What a framing answers.
#[tactic(auto, unfolding(crate::specs::Speaking::framed_text))]
fn framing(line: &mut Page, answer: Result<usize, FrameRefusal>)
    ensures same_reference { line.new.out.ghost_name ≡ line.old.out.ghost_name }
    ensures typed { page line.new.out.now line.new.at ≡ typed (page line.old.out.now line.old.at) (framed_text answer) }
{
    match answer {
        Ok(n) => told(line, b"written", n),
        Err(FrameRefusal::OutputTooShort) => line.text(b"refused 13"),
    }
}

// The line of a framing.
#[tactic(auto, using(script::proofs::Turns::typed_append), unfolding(crate::specs::Speaking::framed_line))]
pub fn framed(answer: Result<usize, FrameRefusal>, buffer: &[u8], out: &mut [u8]) -> usize
    ensures { page out.new result ≡ typed (page out.old 0) (framed_line answer buffer.now) }
{
    let mut line = Page::on(out);
    framing(&mut line, answer);
    whole(&mut line, buffer);
    line.at
}

// A buffer that nothing was written to.
#[tactic(auto, unfolding(crate::specs::Speaking::blank))]
pub fn untouched() -> [u8; 1024]
    ensures { result ≡ blank }
{
    [0xEE; 1024]
}

// How much of such a buffer is lent: all of it where more is asked for.
pub fn within(count: usize) -> usize
    ensures { result ≡ min count 1024 }
{
    count.min(1024)
}
