// What a transfer asks of a board: the checks that need no more of it than its kind, its BID and its mode, and what
// comes of them.
#![tactic(auto)]

ghost use Rattle.std.specs.Prelude.{◌≡◌};
ghost use Rattle.asking.specs.Sent.{is_sent, bytes_sent};
ghost use Rattle.asking.specs.Checks.{is_startup};
ghost use Rattle.asking.specs.Asked.{refused_by, asked_number, asked_of, number_asked};

use answers::{Answer, Outcome};
use command::{Command, Refusal};
use kinds::Kind;
use modes::Mode;

// What a transfer comes to: no reply, with what is told instead; a reply that refuses it; or a command to run, which
// may still be refused for the mode, its channel or its checksum.
#[derive(Clone, Copy)]
pub enum Asked {
    Silence(Outcome),
    Refusal(Answer),
    Run(Command),
}

// Whether a mode is startup.
#[tactic(auto, unfolding(crate::specs::Checks::is_startup))]
fn is_startup(mode: Mode) -> bool
    ensures { result ≡ is_startup mode }
{
    mode == Mode::Startup
}

// What a transfer that the decoder refused comes to.
fn refused_by(r: Refusal) -> Asked
    ensures { result ≡ refused_by r }
{
    match r {
        Refusal::FewerThanFourBytes => Asked::Silence(Outcome::Answered(
            Answer::FewerThanFourBytes,
        )),
        Refusal::InStartup => Asked::Silence(Outcome::Answered(Answer::InStartup)),
        Refusal::NotThisBoard => Asked::Refusal(Answer::NotThisBoard),
        Refusal::CodeNotListed => Asked::Refusal(Answer::CodeNotListed),
        Refusal::TooShort => Asked::Refusal(Answer::TooShort),
        Refusal::WrongKey | Refusal::WrongParameter | Refusal::NotANumber => {
            Asked::Refusal(Answer::Wrong)
        }
    }
}

// What a transfer asks of a board of a kind and a BID in a mode; where none was sent, nothing.
// Kept: kind and BID are parts of a profile, and a transfer is decoded by them alone, whatever channels are fitted.
pub fn asked_of(kind: Kind, bid: u8, mode: Mode, transfer: Option<&[u8]>) -> Asked
    ensures value { result ≡ asked_of kind bid mode (is_sent transfer.entry) (bytes_sent transfer.entry) }
    ensures number { asked_number result ≡ number_asked kind bid mode (is_sent transfer.entry) (bytes_sent transfer.entry) }
{
    let Some(bytes) = transfer else {
        return Asked::Silence(Outcome::NoTransfer);
    };
    match command::decode(kind, bid, is_startup(mode), bytes) {
        Ok(c) => Asked::Run(c),
        Err(r) => refused_by(r),
    }
}
