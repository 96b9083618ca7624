// A machine on the bench, and what each kind of line that changes it does.
#![tactic(auto)]

ghost use Rattle.std.specs.Prelude.{◌≡◌, take};
ghost use Rattle.wire.specs.Numbers.{signed};
ghost use Rattle.asking.specs.Sent.{is_sent, bytes_sent};
ghost use Rattle.unit.specs.Machine.{begun_of, told_of};
ghost use Rattle.script.specs.Reading.{words_of};
ghost use Rattle.speaking.specs.Speaking.{blank};
ghost use Rattle.starting.specs.Starts.{ok_text, store_of};
ghost use Rattle.handling.specs.Benches.{empty_bench, there, left, printed, started_of, with_lent, ticked_of, received_of, profile_of};

use lines::{Named, Start};
use script::printing::Page;
use script::reading::lent_words;
use state::Profile;
use unit::Machine;

// The bench: the machine on it, once one was started, and the words for its next tick, the first `lent_count` of
// `lent`.
// Kept: the words lie in an array with a count beside it, since the memory of a bench is fixed (no heap).
#[derive(Clone, Copy)]
pub struct Bench {
    pub machine: Option<Machine>,
    pub lent: [u16; 512],
    pub lent_count: usize,
}

// A bench after a line, and how many characters the line printed.
#[derive(Clone, Copy)]
pub struct Ran {
    pub bench: Bench,
    pub printed: usize,
}

// A bench on which nothing was started.
#[tactic(auto, unfolding(crate::specs::Benches::empty_bench))]
pub fn none() -> Bench
    ensures { result ≡ empty_bench }
{
    Bench {
        machine: None,
        lent: [0u16; 512],
        lent_count: 0,
    }
}

// Starts a machine, if its profile and its stored settings keep the rules; else what was on the bench stays there.
#[tactic(auto, unfolding(crate::specs::Benches::started_of))]
pub fn started(bench: Bench, start: Start, image: &[u8], out: &mut [u8]) -> Ran
    ensures { left result out.new ≡ started_of out.old bench (begun_of (there bench.machine) (profile_of start.board) (store_of start.stored image.now)) }
{
    let Named {
        bid,
        fitted,
        forced,
        kind,
        form,
    } = start.board;
    let profile = Profile {
        fitted,
        forced,
        bid,
        kind,
        form,
    };
    let store = starting::store_of(start.stored, image);
    let there = bench.machine.unwrap_or(unit::unstarted());
    let begun = unit::start(there, profile, store);
    let machine = match begun.answer {
        Ok(()) => Some(begun.machine),
        Err(_) => bench.machine,
    };
    Ran {
        bench: Bench { machine, ..bench },
        printed: starting::start_line(begun.answer, out),
    }
}

// The bench with words for its next tick.
pub fn lent(bench: Bench, bytes: &[u8], count: usize, out: &mut [u8]) -> Ran
    ensures { left result out.new ≡ printed out.old (with_lent (words_of 512 bytes.now) count bench) ok_text }
{
    let mut line = Page::on(out);
    line.text(b"ok\n");
    Ran {
        bench: Bench {
            lent: lent_words(bytes),
            lent_count: count,
            ..bench
        },
        printed: line.at,
    }
}

// One tick of the machine on the bench, which uses up the words that were lent.
pub fn ticked(
    bench: Bench,
    machine: Machine,
    rail: u16,
    overcurrent: u32,
    transfer: Option<&[u8]>,
    out: &mut [u8],
) -> Ran
    ensures { left result out.new ≡ ticked_of out.old bench (told_of (signed 2 rail) overcurrent (take bench.lent_count bench.lent) (is_sent transfer.entry) (bytes_sent transfer.entry) machine) }
{
    let told = unit::tick(
        machine,
        rail.cast_signed(),
        overcurrent,
        wire::first(&bench.lent, bench.lent_count),
        transfer,
    );
    Ran {
        bench: Bench {
            machine: Some(told.machine),
            lent_count: 0,
            ..bench
        },
        printed: showing::ticked(
            told.machine.board,
            told.outcome,
            told.event,
            told.replied,
            out,
        ),
    }
}

// A read of the text line of the machine on the bench, which may switch its form.
pub fn received(bench: Bench, machine: Machine, bytes: &[u8], room: usize, out: &mut [u8]) -> Ran
    ensures { left result out.new ≡ received_of out.old bench machine bytes.now (take room blank) }
{
    let mut buffer = speaking::untouched();
    let scratch = &mut buffer[..speaking::within(room)];
    let heard = unit::read_line(machine, bytes, scratch);
    Ran {
        bench: Bench {
            machine: Some(heard.machine),
            ..bench
        },
        printed: looking::answer(heard.machine, heard.line, bytes, scratch, out),
    }
}
