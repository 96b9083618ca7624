// What one line of a replay script does to the machine on the bench.
#![tactic(auto)]

ghost use Rattle.std.specs.Prelude.{◌≡◌};
ghost use Rattle.handling.specs.Benches.{left};
ghost use Rattle.trial.specs.Lines.{ran_of};

use handling::{Bench, Ran};
use lines::Asked;
use script::printing::Page;

// Runs what a line asks for, with the bytes that it holds. A line that asks for nothing is bad, and before a machine
// was started so is one that asks for anything but a start.
#[tactic(auto, unfolding(crate::specs::Lines::ran_of, crate::specs::Lines::ran_on, crate::specs::Lines::first_of))]
pub fn run(bench: Bench, asked: Option<Asked>, held: &[u8], out: &mut [u8]) -> Ran
    ensures { left result out.new ≡ ran_of out.old bench bench.machine asked held.now }
{
    match (asked, bench.machine) {
        (Some(Asked::Start(start)), _) => handling::started(bench, start, held, out),
        (Some(Asked::Lend { count }), Some(_)) => handling::lent(bench, held, count, out),
        (
            Some(
                Asked::Tick {
                    rail,
                    overcurrent,
                    transfer,
                },
            ),
            Some(machine),
        ) => {
            let bytes = transfer.map(|count| wire::first(held, count));
            handling::ticked(bench, machine, rail, overcurrent, bytes, out)
        }
        (Some(Asked::Receive { room, count }), Some(machine)) => {
            handling::received(bench, machine, wire::first(held, count), room, out)
        }
        (Some(Asked::Look(look)), Some(machine)) => Ran {
            bench,
            printed: looking::looked(machine, look, out),
        },
        _ => {
            let mut line = Page::on(out);
            line.text(b"bad\n");
            Ran {
                bench,
                printed: line.at,
            }
        }
    }
}
