// The board that a line names: by its STID and its options, with its profile between them, and its form.
ghost use Rattle.std.specs.Prelude.{◌≡◌};
ghost use Rattle.lines.specs.Lines.{kind_of, kind_in, form_of, board_in};

use crate::Named;
use crate::fields::{limited, profile_of, separated};
use kinds::Kind;
use script::reading::number;
use wire::Form;

// The kind of board of an STID, with those of its options that an option digit holds.
fn kind_of(stid: u32, option: u32) -> Option<Kind>
    ensures { result ≡ kind_of stid option }
{
    let battery = Kind::Battery {
        abf: option % 2 == 1,
    };
    if stid == kinds::stid(Kind::Distribution) as u32 {
        Some(Kind::Distribution)
    } else if stid == kinds::stid(battery) as u32 {
        Some(battery)
    } else {
        None
    }
}

// The kind of board that a line names.
#[tactic(auto, unfolding(crate::specs::Lines::kind_in))]
fn kind_in(line: &[u8]) -> Option<Kind>
    ensures { result ≡ kind_in line.now }
{
    if !separated(line, 1, 25, 27) {
        return None;
    }
    let stid = number(line, 2, 2)?;
    let option = limited(number(line, 26, 1), 3)?;
    kind_of(stid, option)
}

// The form in which a board starts, by the letter that names it or by the dash that names none.
fn form_of(letter: u8) -> Option<Form>
    ensures { result ≡ form_of letter }
{
    match letter {
        b'R' => Some(Form::Raw),
        b'-' => Some(Form::Ascii),
        _ => None,
    }
}

// The profile of a line that names its kind of board and its form; it stands behind the STID.
#[tactic(auto, unfolding(crate::specs::Lines::board_in))]
pub fn board_in(line: &[u8]) -> Option<Named>
    ensures { result ≡ board_in line.now }
{
    let kind = kind_in(line)?;
    let form = form_of(wire::byte(line, 28))?;
    profile_of(kind, form, wire::rest(line, 3))
}
