// What a board keeps of its settings: those in force, what it shows of the last save or load, and its store.
#![tactic(auto)]

ghost use Rattle.std.specs.Prelude.{◌≡◌, cond};
ghost use Rattle.memory.specs.Memory.{one_more, loaded_from, load_of, defaulted_of, set_in, reset_in, stored_count, is_right, saved_of, save_number};
ghost use Rattle.memory.specs.Limits.{safety_low, safety_high, timeout_of, limits_of};

use kinds::Kind;
use modes::Limits;
use settings::Settings;
use value::ParamValue;

// The two read-only values of a save.
#[derive(Clone, Copy)]
pub struct Shown {
    pub save_count: u16,
    pub checksum: u16,
}

// What a save stores: the settings, with their save count.
#[derive(Clone, Copy)]
pub struct Stored {
    pub settings: Settings,
    pub save_count: u16,
}

// The settings in force, what is stored, if anything is, and what is shown.
#[derive(Clone, Copy)]
pub struct Memory {
    pub current: Settings,
    pub store: Option<Stored>,
    pub shown: Shown,
}

// Why a save stores nothing.
#[derive(Clone, Copy)]
pub enum SaveRefusal {
    WrongChecksum,
}

// Emergency low and high in millivolts, the emergency period and the linger in seconds: values of Table 3-26.
pub const EMERGENCY_LOW: u16 = 12000;

pub const EMERGENCY_HIGH: u16 = 12400;

pub const EMERGENCY_PERIOD: u16 = 600;

pub const LINGER: u16 = 60;

// A count one higher; it stops at the top of 16 bits.
#[tactic(auto, unfolding(crate::specs::Memory::one_more))]
pub fn one_more(count: u16) -> u16
    ensures { result ≡ one_more count }
{
    count.saturating_add(1)
}

impl Memory {
    // The memory after a start, a reset or a load: the settings of the store, or the defaults of the kind of board
    // where nothing is stored.
    #[tactic(auto, unfolding(crate::specs::Memory::loaded_from))]
    pub fn loaded(kind: Kind, store: Option<Stored>) -> Memory
        ensures { result ≡ loaded_from kind store }
    {
        match store {
            Some(stored) => Memory {
                current: stored.settings,
                store,
                shown: Shown {
                    save_count: stored.save_count,
                    checksum: image::checksum(stored.settings),
                },
            },
            None => Memory {
                current: settings::defaults(kind),
                store,
                shown: Shown {
                    save_count: 0,
                    checksum: 0,
                },
            },
        }
    }

    // 0x92: the memory as a start has it.
    #[tactic(auto, unfolding(crate::specs::Memory::load_of))]
    pub fn load(self, kind: Kind) -> Memory
        ensures { result ≡ load_of kind self }
    {
        Memory::loaded(kind, self.store)
    }

    // 0x90: every setting at its default on the kind of board; the store stays. They come from `loaded`, as where
    // nothing is stored: were they written here, one by one, the compiler would take the memory of every tick apart.
    #[tactic(auto, unfolding(crate::specs::Memory::loaded_from, crate::specs::Memory::defaulted_of))]
    pub fn to_defaults(self, kind: Kind) -> Memory
        ensures { result ≡ defaulted_of kind self }
    {
        Memory {
            store: self.store,
            ..Memory::loaded(kind, None)
        }
    }

    // 0x84: one setting at a value.
    #[tactic(auto, unfolding(crate::specs::Memory::set_in))]
    pub fn set(self, id: u16, value: ParamValue) -> Memory
        ensures { result ≡ set_in id value self }
    {
        Memory {
            current: settings::set(self.current, id, value),
            ..self
        }
    }

    // 0x86: one setting at its default on the kind of board.
    #[tactic(auto, unfolding(crate::specs::Memory::reset_in))]
    pub fn reset_one(self, kind: Kind, id: u16) -> Memory
        ensures { result ≡ reset_in kind id self }
    {
        Memory {
            current: settings::reset_one(self.current, kind, id),
            ..self
        }
    }

    // 0x94: the settings in force are stored, where the checksum given is 0 or theirs.
    pub fn save(self, given: u16) -> Result<Memory, SaveRefusal>
        ensures value { result ≡ saved_of given self }
        ensures number { save_number result ≡ cond (is_right given self) 0 7 }
    {
        let current = self.current;
        let checksum = image::checksum(current);
        if given != 0 && given != checksum {
            return Err(SaveRefusal::WrongChecksum);
        }
        let save_count = one_more(stored_count(self.store));
        Ok(Memory {
            current,
            store: Some(Stored {
                settings: current,
                save_count,
            }),
            shown: Shown {
                save_count,
                checksum,
            },
        })
    }

    // Safety low, in millivolts: the value of 0x4042.
    pub fn safety_low(self) -> u16
        ensures { result ≡ safety_low self }
    {
        self.current.u16s[66]
    }

    // Safety high, in millivolts: the value of 0x4043.
    pub fn safety_high(self) -> u16
        ensures { result ≡ safety_high self }
    {
        self.current.u16s[67]
    }

    // The watchdog's timeout, in seconds: the value of 0x4000.
    pub fn timeout(self) -> u16
        ensures { result ≡ timeout_of self }
    {
        self.current.u16s[0]
    }

    // What the mode table compares with.
    pub fn limits(self) -> Limits
        ensures { result ≡ limits_of self }
    {
        Limits {
            linger: watchdog::seconds_in_ticks(LINGER),
            period: watchdog::seconds_in_ticks(EMERGENCY_PERIOD),
            safety_low: self.safety_low() as i32,
            safety_high: self.safety_high() as i32,
            emergency_low: EMERGENCY_LOW as i32,
            emergency_high: EMERGENCY_HIGH as i32,
        }
    }
}

// The save count of a store; 0 where nothing is stored.
#[tactic(auto, unfolding(crate::specs::Memory::stored_count))]
fn stored_count(store: Option<Stored>) -> u16
    ensures { result ≡ stored_count store }
{
    match store {
        Some(stored) => stored.save_count,
        None => 0,
    }
}
