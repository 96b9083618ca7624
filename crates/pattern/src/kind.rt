// The kinds of tick, and the letters that stand for them.
ghost use Rattle.std.specs.Prelude.{◌≡◌};
ghost use Rattle.pattern.specs.Kinds.{kinds_by};

// What a tick brings, as the table of docs/SPEED.md has it.
#[derive(Clone, Copy)]
pub enum TickKind {
    Plain,
    Noop,
    OvercurrentState,
    Housekeeping,
    Get,
    Set,
    Group,
    Overcurrent,
    Words,
    NoTick,
}

// The kinds of the ticks of a run: all of one, or the mix of them.
// Kept: no Option, as the mix is a way to run of its own and not the lack of a kind.
#[derive(Clone, Copy)]
pub enum RunKind {
    Each(TickKind),
    Mixed,
}

// The kinds that a letter stands for, where it stands for any.
#[tactic(auto, unfolding(crate::specs::Kinds::kinds_by))]
pub(crate) fn kinds_by(letter: u8) -> Option<RunKind>
    ensures { result ≡ kinds_by letter }
{
    match letter {
        b'p' => Some(RunKind::Each(TickKind::Plain)),
        b'n' => Some(RunKind::Each(TickKind::Noop)),
        b'f' => Some(RunKind::Each(TickKind::OvercurrentState)),
        b'h' => Some(RunKind::Each(TickKind::Housekeeping)),
        b'g' => Some(RunKind::Each(TickKind::Get)),
        b's' => Some(RunKind::Each(TickKind::Set)),
        b'o' => Some(RunKind::Each(TickKind::Group)),
        b'c' => Some(RunKind::Each(TickKind::Overcurrent)),
        b'w' => Some(RunKind::Each(TickKind::Words)),
        b'm' => Some(RunKind::Mixed),
        b'z' => Some(RunKind::Each(TickKind::NoTick)),
        _ => None,
    }
}
