// The 32 output channels: which are on, which are latched, and how often overcurrent turned each one off. Channel c is
// bit c of a set.
#![tactic(auto)]

ghost use Rattle.std.specs.Prelude.{◌≡◌, not};
ghost use Rattle.channels.specs.Sets.{has, is_within, with_channel};
ghost use Rattle.channels.specs.Counting.{count_one, count_all};
ghost use Rattle.channels.specs.Operations.{overcurrent_at, group_on, group_off, group_state, switch_on, switch_off, command_enabled_off, all_off, forced_on, cleared, wrong_to_switch_on, wrong_to_switch_off};

// The fields are private, so that no other crate writes a count: overcurrent raises it, a reset sets it to 0, and
// nothing else changes it.
#[derive(Clone, Copy)]
pub struct Channels {
    on: u32,
    latched: u32,
    counts: [u16; 32],
}

// Whether channel c is in the set; a number above 31 is no channel, and in no set.
pub fn contains(set: u32, c: u8) -> bool
    ensures { result ≡ has set c }
{
    if c > 31 {
        return false;
    }
    (set >> c) % 2 == 1
}

// Whether every channel of `inner` is in `outer`, as the force-enabled ones of a profile have to be in the fitted ones.
pub fn within(inner: u32, outer: u32) -> bool
    ensures { result ≡ is_within inner outer }
{
    let left_over = inner & !outer;
    left_over == 0
}

// The set with channel c put in; a number above 31 is no channel and changes nothing.
pub fn with_channel(set: u32, c: u8) -> u32
    ensures { result ≡ with_channel set c }
{
    if c > 31 {
        return set;
    }
    let one: u32 = 1 << c;
    set | one
}

// A channel's count after a tick in which it trips or does not: one more where it trips, and never above 65,535.
// Kept: whether it trips is the truth value of `count_one`, and the contracts of this crate stay word for word.
fn counted(count: u16, trips: bool) -> u16
    ensures { result ≡ count_one trips count }
{
    if trips {
        count.saturating_add(1)
    } else {
        count
    }
}

// All counts after the channels in `tripping` tripped.
fn all_counted(before: [u16; 32], tripping: u32) -> [u16; 32]
    ensures { result ≡ count_all tripping before }
{
    let mut counts = before;
    for (c, count) in counts.iter_mut().enumerate() {
        *count = counted(*count, (tripping >> c) % 2 == 1);
    }
    counts
}

// Whether refusal 7 does not apply to 0x16: the channel is there and fitted.
pub fn may_switch_on(fitted: u32, c: u8) -> bool
    ensures { result ≡ not (wrong_to_switch_on fitted c) }
{
    contains(fitted, c)
}

// Whether refusal 7 does not apply to 0x18: the channel is there, fitted and not forced.
pub fn may_switch_off(fitted: u32, forced: u32, c: u8) -> bool
    ensures { result ≡ not (wrong_to_switch_off fitted forced c) }
{
    let command_enabled = fitted & !forced;
    contains(command_enabled, c)
}

// Kept: the two sets of a profile and the two of a group command are parameters of their own, since the contracts of
// this crate stay word for word; what is added to it builds on them.
impl Channels {
    // The channels after a reset: none on, none latched, all counts 0.
    pub fn clear() -> Channels
        ensures { result ≡ cleared }
    {
        Channels {
            on: 0,
            latched: 0,
            counts: [0; 32],
        }
    }

    // The set of the channels that are on.
    pub fn on(self) -> u32
        ensures { result ≡ self.on }
    {
        self.on
    }

    // The set of the channels that are latched.
    pub fn latched(self) -> u32
        ensures { result ≡ self.latched }
    {
        self.latched
    }

    // How often overcurrent turned each channel off since the last reset.
    pub fn counts(self) -> [u16; 32]
        ensures { result ≡ self.counts }
    {
        self.counts
    }

    // The channels after those named reported overcurrent: each of them that was on is off, latched and counted; the
    // others stay as they are.
    pub fn overcurrent(self, named: u32) -> Channels
        ensures { result ≡ overcurrent_at named self }
    {
        let was_on = self.on;
        let tripping = named & was_on;
        if tripping == 0 {
            return self;
        }
        let on = !tripping & was_on;
        let latched = tripping | self.latched;
        let before = self.counts;
        let counts = all_counted(before, tripping);
        Channels {
            on,
            latched,
            counts,
        }
    }

    // The channels after 0x10: each one in the mask that is fitted and spoken of is on, its latch cleared; the others
    // stay as they are, latches too.
    pub fn group_on(mut self, fitted: u32, spoken: u32, mask: u32) -> Channels
        ensures { result ≡ group_on fitted spoken mask self }
    {
        let switched = fitted & spoken & mask;
        self.on = switched | self.on;
        self.latched = !switched & self.latched;
        self
    }

    // The channels after 0x12: each one in the mask that is command-enabled and spoken of is off, its latch cleared;
    // the others stay as they are, latches too.
    pub fn group_off(mut self, fitted: u32, forced: u32, spoken: u32, mask: u32) -> Channels
        ensures { result ≡ group_off fitted forced spoken mask self }
    {
        let command_enabled = fitted & !forced;
        let switched = command_enabled & spoken & mask;
        self.on = !switched & self.on;
        self.latched = !switched & self.latched;
        self
    }

    // The channels after 0x14. Of those that are fitted and spoken of, whatever the mask has is on and what it lacks is
    // off if command-enabled, their latches cleared. A forced one outside the mask, and every channel that is not
    // fitted or not spoken of, stays as it is, its latch too.
    pub fn group_state(mut self, fitted: u32, forced: u32, spoken: u32, mask: u32) -> Channels
        ensures { result ≡ group_state fitted forced spoken mask self }
    {
        let command_enabled = fitted & !forced;
        let up = fitted & spoken & mask;
        let switched = (command_enabled & spoken) | up;
        self.on = up | (!switched & self.on);
        self.latched = !switched & self.latched;
        self
    }

    // The channels after 0x16: the one channel is on, its latch cleared. Where it is not there or not fitted, nothing
    // changes.
    pub fn switch_on(self, fitted: u32, c: u8) -> Channels
        ensures { result ≡ switch_on fitted c self }
    {
        let one = with_channel(0, c);
        self.group_on(fitted, one, one)
    }

    // The channels after 0x18: the one channel is off, its latch cleared. Where it is not there, not fitted or forced,
    // nothing changes.
    pub fn switch_off(self, fitted: u32, forced: u32, c: u8) -> Channels
        ensures { result ≡ switch_off fitted forced c self }
    {
        let one = with_channel(0, c);
        self.group_off(fitted, forced, one, one)
    }

    // The channels after 0x04, and where safety is entered from nominal: the command-enabled ones are off, no latch is
    // altered.
    pub fn command_enabled_off(mut self, fitted: u32, forced: u32) -> Channels
        ensures { result ≡ command_enabled_off fitted forced self }
    {
        let command_enabled = fitted & !forced;
        self.on = !command_enabled & self.on;
        self
    }

    // The channels where emergency is entered: all off, no latch is altered.
    pub fn all_off(mut self) -> Channels
        ensures { result ≡ all_off self }
    {
        self.on = 0;
        self
    }

    // The channels where startup or emergency is left by the table: on are those that are fitted and forced, and no
    // other; no latch is left.
    pub fn forced_on(mut self, fitted: u32, forced: u32) -> Channels
        ensures { result ≡ forced_on fitted forced self }
    {
        self.on = fitted & forced;
        self.latched = 0;
        self
    }
}
