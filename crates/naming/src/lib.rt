// The letters and digits by which a printed line names a mode, an event, an answer and a form.
#![tactic(auto)]

ghost use Rattle.std.specs.Prelude.{◌≡◌};
ghost use Rattle.naming.specs.Naming.{mode_letter, event_letter, answer_digit, form_letter};

use answers::Answer;
use modes::Mode;
use watchdog::Event;
use wire::Form;

// The letter of a mode.
// Kept: a letter for each case is plainest as a `match`; a `From` would have to stand in the type's own crate, which
// knows nothing of lines.
pub fn mode_letter(mode: Mode) -> u8
    ensures { result ≡ mode_letter mode }
{
    match mode {
        Mode::Startup => b'U',
        Mode::Nominal => b'N',
        Mode::Safety => b'F',
        Mode::Emergency => b'E',
    }
}

// The letter of what the watchdog did.
// Kept: a letter for each case is plainest as a `match`; a `From` would have to stand in the type's own crate, which
// knows nothing of lines.
pub fn event_letter(event: Event) -> u8
    ensures { result ≡ event_letter event }
{
    match event {
        Event::NoEvent => b'-',
        Event::PeripheralReset => b'P',
        Event::WatchdogReset => b'W',
    }
}

// The digit of a command's answer.
pub fn answer_digit(answer: Answer) -> u8
    ensures { result ≡ answer_digit answer }
{
    b'0' + answer as u8
}

// The letter of the text line's form.
// Kept: a letter for each case is plainest as a `match`; a `From` would have to stand in the type's own crate, which
// knows nothing of lines.
pub fn form_letter(form: Form) -> u8
    ensures { result ≡ form_letter form }
{
    match form {
        Form::Raw => b'R',
        Form::Ascii => b'A',
    }
}
