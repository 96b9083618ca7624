// What names the kinds of the ticks of a run, and the kind of a tick: the kinds themselves, or a letter.
ghost use Rattle.std.specs.Prelude.{◌≡◌};
ghost use Rattle.pattern.specs.Kinds.{run_by, tick_by};
ghost use Rattle.pattern.specs.declared.kind.TickKind.{TickKind};
ghost use Rattle.pattern.specs.declared.kind.RunKind.{RunKind};

use crate::kind::{RunKind, TickKind, kinds_by};

// What names the kinds of the ticks of a run.
pub trait NamesRun: Copy {
    ghost kinds: { Self → RunKind };

    // The kinds that it names.
    fn kinds(self) -> RunKind
        ensures { result ≡ kinds self };
}

// Kinds name themselves.
impl NamesRun for RunKind {
    ghost kinds = { λ run. run };

    fn kinds(self) -> RunKind {
        self
    }
}

// A letter that stands for no kind names plain ticks alone.
impl NamesRun for u8 {
    ghost kinds = { run_by };

    fn kinds(self) -> RunKind {
        kinds_by(self).unwrap_or(RunKind::Each(TickKind::Plain))
    }
}

// What names the kind of a tick.
pub trait NamesTick: Copy {
    ghost kind: { Self → TickKind };

    // The kind that it names.
    fn kind(self) -> TickKind
        ensures { result ≡ kind self };
}

// A kind names itself.
impl NamesTick for TickKind {
    ghost kind = { λ tick. tick };

    fn kind(self) -> TickKind {
        self
    }
}

// The letter of the mix, which is no kind of its own, names a plain tick, as does one that stands for no kind.
impl NamesTick for u8 {
    ghost kind = { tick_by };

    fn kind(self) -> TickKind {
        match self.kinds() {
            RunKind::Each(kind) => kind,
            RunKind::Mixed => TickKind::Plain,
        }
    }
}
