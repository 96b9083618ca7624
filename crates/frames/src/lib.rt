// The frame in what the text line received: the first <cmd>, and the first </cmd> after it.
#![tactic(auto)]

ghost use Rattle.std.specs.Prelude.{◌≡◌, ◌≤◌, length, drop};
ghost use Rattle.frames.specs.Frames.{first_at, place_of, Sits, frame_of, Inside};
ghost use Rattle.frames.specs.Answers.{frame_number, scan_number};

// Where a tag stands: it begins at start, and behind is the place after it.
#[derive(Clone, Copy)]
struct Place {
    start: usize,
    behind: usize,
}

// The first place from `from` on at which a tag stands.
// Kept: document 01 names this form of the scan, a loop over the places, in it one over the tag's bytes, and the label.
// argued: called by `scan` alone, with a place that it was told
fn find(s: &[u8], tag: &[u8], from: usize) -> Option<Place>
    requires { from ≤ length s.now }
    ensures is { result ≡ place_of (length tag.now) (first_at tag.now from (drop from s.now)) }
    ensures sits { Sits result from (length s.now) }
{
    let n = s.len();
    let t = tag.len();
    let mut i = from;
    let mut behind = 0;
    'places: loop {
        if n - i < t {
            return None;
        }
        let mut k = 0;
        loop {
            if k == t {
                behind = i + k;
                break 'places;
            }
            if s[i + k] != tag[k] {
                break;
            }
            k += 1;
        }
        i += 1;
    }
    Some(Place { start: i, behind })
}

// A frame: its payload is what lies from start up to end, and behind is the place after its closing tag.
#[derive(Clone, Copy)]
pub struct Frame {
    pub start: usize,
    pub end: usize,
    pub behind: usize,
}

// The frame in what was received, where there is a complete one.
pub fn scan(received: &[u8]) -> Option<Frame>
    ensures is { result ≡ frame_of received.now }
    ensures inside { Inside result (length received.now) }
    ensures number { frame_number result ≡ scan_number received.now }
{
    let opening = find(received, b"<cmd>", 0)?;
    let start = opening.behind;
    let closing = find(received, b"</cmd>", start)?;
    Some(Frame {
        start,
        end: closing.start,
        behind: closing.behind,
    })
}
