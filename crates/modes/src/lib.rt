// The modes of the board: how long it has been in one, the table by which it leaves, and the two commands that change
// it.
#![tactic(auto)]

ghost use Rattle.std.specs.Prelude.{◌≡◌, cond};
ghost use Rattle.modes.specs.Table.{entered, older_of, step_of};
ghost use Rattle.modes.specs.Commands.{to_safety, to_nominal, mode_number, safety_unavailable, nominal_unavailable};
ghost use Rattle.modes.specs.declared.Mode.TheVariants.{Startup};

#[derive(Clone, Copy, PartialEq, Eq)]
pub enum Mode {
    Startup,
    Nominal,
    Safety,
    Emergency,
}

// A mode, and the ticks since it was entered. The fields are private, so that the two change together, and only as this
// crate has it.
#[derive(Clone, Copy)]
pub struct ModeAge {
    age: u64,
    mode: Mode,
}

// What the table compares with: times in ticks, thresholds in millivolts. A threshold is wider than the rail, so that
// an unsigned one counts by value.
#[derive(Clone, Copy)]
pub struct Limits {
    pub linger: u64,
    pub period: u64,
    pub safety_low: i32,
    pub safety_high: i32,
    pub emergency_low: i32,
    pub emergency_high: i32,
}

const STARTUP_TICKS: u64 = 50;

// A mode as it is when it is entered.
fn enter(mode: Mode) -> ModeAge
    ensures { result ≡ entered mode }
{
    ModeAge { age: 0, mode }
}

impl ModeAge {
    // The mode of a start and of every reset: startup, just entered.
    pub fn start() -> ModeAge
        ensures { result ≡ entered Startup }
    {
        enter(Mode::Startup)
    }

    // The mode that the board is in.
    pub fn mode(self) -> Mode
        ensures { result ≡ self.mode }
    {
        self.mode
    }

    // The ticks since that mode was entered.
    pub fn age(self) -> u64
        ensures { result ≡ self.age }
    {
        self.age
    }

    // The same mode and age.
    // Kept: put together anew and not copied, since a copy of the whole carries along the unused bytes behind the mode,
    // and that is slow.
    pub fn kept(self) -> ModeAge
        ensures { result ≡ self }
    {
        let mode = self.mode;
        ModeAge {
            age: self.age,
            mode,
        }
    }

    // The same mode, one tick older; the age stops at the top.
    #[tactic(auto, unfolding(crate::specs::Table::older_of))]
    pub fn older(self) -> ModeAge
        ensures { result ≡ older_of self }
    {
        ModeAge {
            age: self.age.saturating_add(1),
            mode: self.mode,
        }
    }

    // The mode after the tick's automatic change, of which there is one at most: what the first row of the table that
    // applies says.
    #[tactic(auto, unfolding(crate::specs::Table::step_of))]
    pub fn step(self, rail: i16, limits: Limits) -> ModeAge
        ensures { result ≡ step_of self rail limits }
    {
        use Mode::{Emergency, Nominal, Safety, Startup};
        let rail = i32::from(rail);
        match self.mode {
            Startup if self.age >= STARTUP_TICKS && rail >= limits.safety_low => enter(Nominal),
            Startup if self.age >= STARTUP_TICKS => enter(Safety),
            Nominal if rail < limits.safety_low => enter(Safety),
            Safety if self.age > limits.linger && rail > limits.safety_high => enter(Nominal),
            Safety if self.age > limits.linger && rail < limits.emergency_low => enter(Emergency),
            Emergency if rail > limits.emergency_high => enter(Safety),
            Emergency if self.age >= limits.period => enter(Safety),
            Startup | Nominal | Safety | Emergency => self,
        }
    }

    // 0x32: nominal is left for safety, safety stays as it is, and elsewhere the command is not available.
    #[tactic(auto, unfolding(crate::specs::Commands::to_safety))]
    pub fn to_safety(self) -> Option<ModeAge>
        ensures value { result ≡ to_safety self }
        ensures number { mode_number result ≡ cond (safety_unavailable self.mode) 6 0 }
    {
        match self.mode {
            Mode::Nominal => Some(enter(Mode::Safety)),
            Mode::Safety => Some(self),
            Mode::Startup | Mode::Emergency => None,
        }
    }

    // 0x30: nominal stays as it is, safety is left for nominal where the rail is not below safety low, and elsewhere
    // the command is not available.
    #[tactic(auto, unfolding(crate::specs::Commands::to_nominal))]
    pub fn to_nominal(self, rail: i16, limits: Limits) -> Option<ModeAge>
        ensures value { result ≡ to_nominal self rail limits }
        ensures number { mode_number result ≡ cond (nominal_unavailable self.mode rail limits) 6 0 }
    {
        match self.mode {
            Mode::Nominal => Some(self),
            Mode::Safety if i32::from(rail) >= limits.safety_low => Some(enter(Mode::Nominal)),
            Mode::Startup | Mode::Safety | Mode::Emergency => None,
        }
    }
}
