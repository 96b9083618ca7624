// A session: the board of a sheet is started, and its ticks run one after another, each with its line of the
// transcript.
#![tactic(auto)]

ghost use Rattle.std.specs.Prelude.{◌≡◌, ◌<◌, ◌≤◌, is_some};
ghost use Rattle.asking.specs.Sent.{is_sent, bytes_sent};
ghost use Rattle.transcript.specs.Transcript.{opened_number};
ghost use Rattle.session.specs.Sessions.{no_session, ended_step, opened, stepped, first_sent, started_of, opened_of, stepped_of, ticked_of, sheet_refusal};

use sheet::TickLine;
use state::{Profile, StartRefusal, distribution, naming_raw};
use transcript::{SheetRefusal, tick_line, ticks_line};
use unit::Machine;

// The machine of a sheet, how many ticks the sheet has and how many are left, and the place of the next tick's line.
#[derive(Clone, Copy)]
pub struct Session {
    pub machine: Machine,
    pub count: u32,
    pub left: u32,
    pub at: usize,
}

// A session after one step, the opening too, and how many characters were printed.
#[derive(Clone, Copy)]
pub struct Stepped {
    pub session: Session,
    pub printed: usize,
}

// A session with no ticks, to stand where one has ended.
fn none() -> Session
    ensures { result ≡ no_session }
{
    Session {
        machine: unit::unstarted(),
        count: 0,
        left: 0,
        at: 0,
    }
}

// Starts the board of a sheet of the form, and prints the count of its ticks; a refused start leaves the buffer.
fn started(
    profile: Profile,
    ticks: u32,
    first: usize,
    out: &mut [u8],
) -> Result<Stepped, SheetRefusal>
    ensures { opened result out.new ≡ started_of out.old profile ticks first }
{
    let begun = unit::start(unit::unstarted(), profile, None);
    let answer = begun.answer;
    let machine = begun.machine;
    match answer {
        Ok(()) => Ok(Stepped {
            session: Session {
                machine,
                count: ticks,
                left: ticks,
                at: first,
            },
            printed: ticks_line(out, ticks),
        }),
        Err(StartRefusal::ProfileBreaksARule) => Err(SheetRefusal::ProfileBreaksARule),
    }
}

// Opens a sheet of any bytes: the form of the whole sheet is looked at before the profile in it. The first line of the
// transcript goes into the front of the lent buffer, and a buffer that is too short is filled with its front; where the
// sheet is refused, the buffer keeps what it held.
pub fn open(s: &[u8], out: &mut [u8]) -> Result<Stepped, SheetRefusal>
    ensures leaves { opened result out.new ≡ opened_of out.old s.now }
    ensures number { opened_number result ≡ sheet_refusal s.now }
{
    let Some(head) = sheet::read(s) else {
        return Err(SheetRefusal::NotOfForm);
    };
    let profile = naming_raw(distribution(head.bid, head.fitted, head.forced));
    started(profile, head.ticks, head.first, out)
}

// The bytes that were sent, where some were, by how many they are.
fn sent_of<'a>(count: Option<usize>, bytes: &'a [u8]) -> Option<&'a [u8]>
    ensures is { is_sent result ≡ is_some count }
    ensures bytes { bytes_sent result ≡ first_sent count bytes.now }
{
    let n = count?;
    Some(wire::first(bytes, n))
}

// Runs one tick of a session, and prints its line.
// argued: called where a tick is left, and no more than there are
fn ticked(session: Session, line: TickLine, transfer: Option<&[u8]>, out: &mut [u8]) -> Stepped
    requires { (0 < session.left) × (session.left ≤ session.count) }
    ensures { stepped result out.new ≡ ticked_of out.old session line.rail line.overcurrent (is_sent transfer.entry) (bytes_sent transfer.entry) line.next }
{
    let words: [u16; 0] = [];
    let told = unit::tick(
        session.machine,
        line.rail,
        line.overcurrent,
        &words,
        transfer,
    );
    let machine = told.machine;
    let left = session.left - 1;
    let number = session.count - left;
    Stepped {
        session: Session {
            machine,
            count: session.count,
            left,
            at: line.next,
        },
        printed: tick_line(out, number, told.replied, machine.board),
    }
}

// Runs the next tick of a session, and prints its line into the front of the lent buffer; no line of a board is longer
// than 1,024 characters, and a buffer that is too short is filled with its front. A session that has no tick left, or
// more left than it has, or no tick line where the next should be, prints nothing and ends: a sheet that was opened has
// its lines.
pub fn step(session: Session, s: &[u8], out: &mut [u8]) -> Stepped
    ensures { stepped result out.new ≡ stepped_of out.old s.now session }
{
    let mut transfer = [0u8; 256];
    let Ok(line) = sheet::read_tick(s, session.at, &mut transfer) else {
        return ended();
    };
    if session.left == 0 || session.count < session.left {
        return ended();
    }
    ticked(session, line, sent_of(line.transfer, &transfer), out)
}

// A session that ended: nothing is printed.
fn ended() -> Stepped
    ensures { result ≡ ended_step }
{
    Stepped {
        session: none(),
        printed: 0,
    }
}
