// One tick line of a sheet.
ghost use Rattle.std.specs.Prelude.{◌≡◌, length};
ghost use Rattle.hexadecimal.specs.Hex.{payload_of};
ghost use Rattle.sheet.specs.Form.{spells, command, any_tick_line};
ghost use Rattle.sheet.specs.Answers.{refused_by, command_of, command_held, tick_of, tick_held, tick_number, tick_refusal};

use grammar::{Found, find_byte, literal, read_signed, read_word};
use hexadecimal::PayloadRefusal;

// What a tick line says, with how many bytes of a transfer it spells, where it has one, and the place behind it.
#[derive(Clone, Copy)]
pub struct TickLine {
    pub rail: i16,
    pub overcurrent: u32,
    pub transfer: Option<usize>,
    pub next: usize,
}

// Why there is no tick line: it is not of the form, or its transfer has more bytes than the buffer.
#[derive(Clone, Copy)]
pub enum TickRefusal {
    NotOfForm,
    TransferTooLong,
}

impl From<PayloadRefusal> for TickRefusal {
    ghost from_gives = { λ e r. r ≡ refused_by e };

    fn from(e: PayloadRefusal) -> TickRefusal {
        match e {
            PayloadRefusal::NotOfForm => TickRefusal::NotOfForm,
            PayloadRefusal::TooShort => TickRefusal::TransferTooLong,
        }
    }
}

// The bytes of a transfer, from the text of a command, into the front of a buffer: how many they are, and the place
// behind the line.
fn spelt(text: &[u8], next: usize, transfer: &mut [u8]) -> Result<Found<Option<usize>>, TickRefusal>
    ensures answer { result ≡ command_of (length transfer.old) (spells (payload_of text.now) next) }
    ensures held { transfer.new ≡ command_held (spells (payload_of text.now) next) transfer.old }
{
    let count = hexadecimal::read(text, transfer)?;
    Ok(Found {
        value: Some(count),
        next,
    })
}

// The command up to the line's end: `-` for no transfer, else its bytes in ASCII form.
#[tactic(auto, using(crate::proofs::Lines::command_silent, crate::proofs::Lines::command_endless, crate::proofs::Lines::command_spelt, crate::proofs::Lines::silence_fits, crate::proofs::Lines::laid_none))]
fn read_command(
    s: &[u8],
    at: usize,
    transfer: &mut [u8],
) -> Result<Found<Option<usize>>, TickRefusal>
    ensures answer { result ≡ command_of (length transfer.old) (command s.now at) }
    ensures held { transfer.new ≡ command_held (command s.now at) transfer.old }
{
    if let Some(next) = literal(s, at, b"-\n") {
        return Ok(Found { value: None, next });
    }
    let Some(end) = find_byte(s, at, b'\n') else {
        return Err(TickRefusal::NotOfForm);
    };
    spelt(&s[at..end], end + 1, transfer)
}

// The tick line at a place. The buffer's length is the most bytes that its transfer may have: a sheet's are read with
// 256. Where the line is not of the form, or its transfer has more, the buffer keeps what it held, and the answer says
// which of the two it is.
#[tactic(auto, using(crate::proofs::Parts::text_one, crate::proofs::Lines::tick_number_lem), unfolding(crate::specs::Form::any_tick_line))]
pub fn read_tick(s: &[u8], at: usize, transfer: &mut [u8]) -> Result<TickLine, TickRefusal>
    ensures answer { result ≡ tick_of (length transfer.old) (any_tick_line s.now at) }
    ensures held { transfer.new ≡ tick_held (any_tick_line s.now at) transfer.old }
    ensures number { tick_number result ≡ tick_refusal (length transfer.old) s.now at }
{
    let rail = read_signed(s, at).ok_or(TickRefusal::NotOfForm)?;
    let set_at = literal(s, rail.next, b" ").ok_or(TickRefusal::NotOfForm)?;
    let overcurrent = read_word(s, set_at).ok_or(TickRefusal::NotOfForm)?;
    let command_at = literal(s, overcurrent.next, b" ").ok_or(TickRefusal::NotOfForm)?;
    let command = read_command(s, command_at, transfer)?;
    Ok(TickLine {
        rail: rail.value,
        overcurrent: overcurrent.value,
        transfer: command.value,
        next: command.next,
    })
}
