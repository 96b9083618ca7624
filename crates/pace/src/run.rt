// A run: the board is brought out of startup, ticks, and is looked at after each tick and at the end.
use pattern::{Run, TickKind, Transfer};
use unit::Machine;

// A machine that has just been started in raw form, all of its channels fitted and nothing stored.
// argued: an instrument; its digest is compared with the second program's
fn started() -> Machine {
    let profile = state::naming_raw(state::distribution(1, 0xFFFFFFFF, 0x0000000F));
    unit::start(unit::unstarted(), profile, None).machine
}

// A digest that took in what a turn told and what the machine then holds; the ticks that wake the board are not seen.
// argued: an instrument; its digest is compared with the second program's
fn seen(turn: u64, digest: u32, told: u64, m: &Machine) -> u32 {
    if pattern::is_waking(turn) {
        return digest;
    }
    let i = pattern::place(turn);
    let b = m.board;
    let switched = digest::switched(b.channels, i);
    let waiting = digest::waiting(b.reply, i);
    let timed = digest::timed(b.phase, b.timer);
    pattern::taken(digest, pattern::summed(told, switched, waiting, timed))
}

// A digest that took in what a machine holds once the run is over, in the order of docs/SPEED.md.
// argued: an instrument; its digest is compared with the second program's
fn closed(digest: u32, m: Machine) -> u32 {
    let b = m.board;
    let mut bus = [0; 274];
    unit::bus_read(m, &mut bus);
    let words = readings::words(b.measured.words);
    let d = pattern::all_taken(digest, &bus);
    let d = pattern::all_taken(d, &b.channels.counts());
    let d = pattern::all_taken(d, pattern::counted(&words));
    let d = pattern::taken(d, b.measured.fresh.raw as u64);
    let d = pattern::all_taken(d, &image::bytes(b.memory.current));
    let d = pattern::all_taken(d, &[b.resets.power, b.resets.watchdog, b.resets.command]);
    let d = pattern::taken(d, answers::cause_number(b.resets.cause));
    pattern::all_taken(d, &[b.memory.shown.save_count, b.memory.shown.checksum])
}

// The digest of a run. The ticks that wake the board run at the same place as the others: `unit::tick` is called once
// in the program, so that the compiler lays it into the loop.
// argued: an instrument; its digest is compared with the second program's
pub fn digest_of(run: Run) -> u32 {
    let mut m = started();
    let mut words = pattern::first_words();
    let mut x = 1;
    let mut d = 0;
    for turn in 0..pattern::turns(run.count) {
        let b = pattern::brought_by(run.kinds, turn, x);
        x = b.x;
        let mut told = 0;
        if !matches!(b.kind, TickKind::NoTick) {
            // A copy: what lends a part of itself has to lie in memory, and a turn without a tick would pay for that too.
            let brought = b;
            let sent = brought.transfer.as_ref().map(Transfer::sent);
            brought.change(&mut words);
            let t = unit::tick(m, brought.rail, brought.named, brought.lent(&words), sent);
            m = t.machine;
            told = digest::told(t.outcome, t.event, t.replied);
        }
        d = seen(turn, d, told, &m);
    }
    closed(d, m)
}
