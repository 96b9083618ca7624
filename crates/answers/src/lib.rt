// What a transfer may be answered, with the status code of each answer, what a board is called by, and what a parameter
// reads.
#![tactic(auto)]

ghost use Rattle.std.specs.Prelude.{◌≡◌};
ghost use Rattle.answers.specs.Answers.{received_in, header_of, stat_of};

mod parameters;

use command::Header;
pub use parameters::{cause_number, value_read};
use state::{Board, Profile};

// What a transfer is answered.
// Kept: eight answers that document 01 numbers, each with its status; that a command is accepted is one of them.
#[derive(Clone, Copy)]
pub enum Answer {
    Accepted,
    FewerThanFourBytes,
    InStartup,
    NotThisBoard,
    CodeNotListed,
    TooShort,
    NotAvailable,
    Wrong,
}

// What a tick tells of its transfer: that the words lent are neither none nor all, so that the tick did not happen;
// that there was no transfer; or its answer.
// Kept: three things that a tick can tell; a Result of an Option would name none of them.
#[derive(Clone, Copy)]
pub enum Outcome {
    WrongWordCount,
    NoTransfer,
    Answered(Answer),
}

// The board after its command, what the tick tells of it, and whether a reply was made.
// Kept: `replied` has no value beside it; the reply is laid in the board's buffer, where it waits.
#[derive(Clone, Copy)]
pub struct Commanded {
    pub board: Board,
    pub outcome: Outcome,
    pub replied: bool,
}

// The four bytes that a transfer starts with.
#[derive(Clone, Copy)]
pub struct Received {
    pub stid: u8,
    pub ivid: u8,
    pub code: u8,
    pub bid: u8,
}

// The first four bytes of a transfer; where there are fewer, 0 stands for those that are not there.
pub fn start_of(transfer: &[u8]) -> Received
    ensures { result ≡ received_in transfer.now }
{
    Received {
        stid: wire::byte(transfer, 0),
        ivid: wire::byte(transfer, 1),
        code: wire::byte(transfer, 2),
        bid: wire::byte(transfer, 3),
    }
}

// What a board of a profile is called by.
pub fn header(p: Profile) -> Header
    ensures { result ≡ header_of p }
{
    let kind = p.kind;
    command::header_of(kind, p.bid)
}

// The status code of an answer; 0 stands for the two that make no reply, and is never sent.
// Kept: a row of document 01's table for each answer, of which two have no status, so that they have no numbers.
pub fn stat(answer: Answer) -> u8
    ensures { result ≡ stat_of answer }
{
    match answer {
        Answer::Accepted => 0x80,
        Answer::FewerThanFourBytes => 0,
        Answer::InStartup => 0,
        Answer::NotThisBoard => 0x06,
        Answer::CodeNotListed => 0x02,
        Answer::TooShort => 0x03,
        Answer::NotAvailable => 0x05,
        Answer::Wrong => 0x04,
    }
}
