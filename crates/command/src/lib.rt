// Any transfer, decoded to a command or a refusal, for the checks that need no more of a board than its kind, its BID
// and whether it is in startup.
#![tactic(auto)]

ghost use Rattle.std.specs.Prelude.{◌≡◌, Some};
ghost use Rattle.command.specs.Table.{plain, keyed, command_table, find};
ghost use Rattle.command.specs.Decode.{fewer_than_four, header_of, header_is, group_in, getting, unread, setting, resetting, carried, key_differs, listed, decode_of};
ghost use Rattle.command.specs.Checks.{first, checks, mode_alone};
ghost use Rattle.command.specs.Answers.{decoded_number};

use kinds::Kind;
use settings::Parameter;
use value::{ParamValue, ValueRefusal};
use wire::Travels;

// What a board is called by: its system type, its interface version and its board identifier.
#[derive(Clone, Copy)]
pub struct Header {
    pub stid: u8,
    pub ivid: u8,
    pub bid: u8,
}

// The channels of a group command: those in the mask, and those that the command speaks of at all.
#[derive(Clone, Copy)]
pub struct Group {
    pub mask: u32,
    pub spoken: u32,
}

// The commands that the decoder knows, by short names after their ICD pages.
#[derive(Clone, Copy)]
enum Name {
    SystemReset,
    NoOperation,
    CancelOperation,
    Watchdog,
    GroupOn,
    GroupOff,
    GroupState,
    ChannelOn,
    ChannelOff,
    SwitchToNominal,
    SwitchToSafety,
    GetOvercurrentFaultState,
    GetHousekeeping,
    GetParameter,
    SetParameter,
    ResetParameter,
    ResetConfiguration,
    LoadConfiguration,
    SaveConfiguration,
    GetEngineeringHousekeeping,
    GetAbfPlacedState,
    GetBatteryHousekeeping,
    GetEngineeringBatteryHousekeeping,
}

// What the table of commands says of a code: the command and the bytes it needs, with its key where it has one.
#[derive(Clone, Copy)]
struct Listed {
    name: Name,
    needed: usize,
    key: Option<u8>,
}

// How a reply is laid out, by what it tells: nothing more than its 5 bytes, the overcurrent faults, the measured words
// as raw readings, a parameter, or the measured words as engineering readings; and of a battery board whether its ABF
// is placed, and its measured words as raw and as engineering readings.
// Kept: eight layouts, of which one carries an id; none is the lack of another.
#[derive(Clone, Copy)]
pub enum Layout {
    Short,
    Faults,
    Housekeeping,
    Parameter(u16),
    EngineeringHousekeeping,
    AbfPlacedState,
    BatteryHousekeeping,
    EngineeringBatteryHousekeeping,
}

// A command with what it carries: a group, a channel, a parameter's id, an id and a value, or a checksum. The commands
// that change neither mode, channels nor memory are one case with the layout of their reply: 0x02, 0x06, 0x42, 0x44,
// 0x82, and 0x50, 0x52, 0x60 and 0x62, each of which ends its own NEW besides.
// Kept: a case for each command with what it carries, which document 01 names as the form.
#[derive(Clone, Copy)]
pub enum Command {
    SystemReset,
    CancelOperation,
    GroupOn(Group),
    GroupOff(Group),
    GroupState(Group),
    ChannelOn(u8),
    ChannelOff(u8),
    SwitchToNominal,
    SwitchToSafety,
    SetParameter(u16, ParamValue),
    ResetParameter(u16),
    ResetConfiguration,
    LoadConfiguration,
    SaveConfiguration(u16),
    Report(Layout),
}

// Why a transfer is no command.
#[derive(Clone, Copy)]
pub enum Refusal {
    FewerThanFourBytes,
    InStartup,
    NotThisBoard,
    CodeNotListed,
    TooShort,
    WrongKey,
    WrongParameter,
    NotANumber,
}

// A value that cannot be read is refused by what it lacks.
impl From<ValueRefusal> for Refusal {
    ghost from_gives = { λ r e. e ≡ unread r };

    fn from(r: ValueRefusal) -> Refusal {
        match r {
            ValueRefusal::TooShort => Refusal::TooShort,
            ValueRefusal::NotANumber => Refusal::NotANumber,
        }
    }
}

// What a board of a kind and a BID is called by.
pub fn header_of(kind: Kind, bid: u8) -> Header
    ensures { result ≡ header_of kind bid }
{
    Header {
        stid: kinds::stid(kind),
        ivid: 7,
        bid,
    }
}

// Whether a transfer is too short to have a header.
#[tactic(auto, unfolding(crate::specs::Decode::fewer_than_four))]
fn too_short(transfer: &[u8]) -> bool
    ensures { result ≡ fewer_than_four transfer.now }
{
    transfer.len() < 4
}

// Whether STID, IVID and BID are the board's.
#[tactic(auto, unfolding(crate::specs::Decode::header_is))]
fn is_for(board: Header, transfer: &[u8]) -> bool
    ensures { result ≡ header_is board transfer.now }
{
    wire::byte(transfer, 0) == board.stid
        && wire::byte(transfer, 1) == board.ivid
        && wire::byte(transfer, 3) == board.bid
}

// A row of the table without a key.
fn plain(name: Name, needed: usize) -> Option<Listed>
    ensures { result ≡ Some (plain name needed) }
{
    Some(Listed {
        name,
        needed,
        key: None,
    })
}

// A row of the table with a key.
fn keyed(name: Name, needed: usize, key: u8) -> Option<Listed>
    ensures { result ≡ Some (keyed name needed key) }
{
    Some(Listed {
        name,
        needed,
        key: Some(key),
    })
}

// What the table of commands says of a code.
#[tactic(auto, unfolding(crate::specs::Table::command_table, crate::specs::Table::find))]
fn listed_as(code: u8) -> Option<Listed>
    ensures { result ≡ find command_table code }
{
    match code {
        0xAA => keyed(Name::SystemReset, 5, 0xA6),
        0x02 => plain(Name::NoOperation, 4),
        0x04 => plain(Name::CancelOperation, 4),
        0x06 => plain(Name::Watchdog, 4),
        0x10 => plain(Name::GroupOn, 6),
        0x12 => plain(Name::GroupOff, 6),
        0x14 => plain(Name::GroupState, 6),
        0x16 => plain(Name::ChannelOn, 5),
        0x18 => plain(Name::ChannelOff, 5),
        0x30 => plain(Name::SwitchToNominal, 4),
        0x32 => plain(Name::SwitchToSafety, 4),
        0x42 => plain(Name::GetOvercurrentFaultState, 4),
        0x50 => plain(Name::GetHousekeeping, 4),
        0x82 => plain(Name::GetParameter, 6),
        0x84 => plain(Name::SetParameter, 6),
        0x86 => plain(Name::ResetParameter, 6),
        0x90 => keyed(Name::ResetConfiguration, 5, 0xA7),
        0x92 => keyed(Name::LoadConfiguration, 5, 0xA7),
        0x94 => keyed(Name::SaveConfiguration, 7, 0xA7),
        0x52 => plain(Name::GetEngineeringHousekeeping, 4),
        0x44 => plain(Name::GetAbfPlacedState, 4),
        0x60 => plain(Name::GetBatteryHousekeeping, 4),
        0x62 => plain(Name::GetEngineeringBatteryHousekeeping, 4),
        _ => None,
    }
}

// The channels that a group command names; of the extended mask both bytes count, or none.
#[tactic(auto, unfolding(crate::specs::Decode::group_in))]
fn group_in(transfer: &[u8]) -> Group
    ensures { result ≡ group_in transfer.now }
{
    if transfer.len() < 8 {
        return Group {
            mask: u16::read_at(transfer, 4) as u32,
            spoken: 0x0000FFFF,
        };
    }
    Group {
        mask: u32::read_at(transfer, 4),
        spoken: 0xFFFFFFFF,
    }
}

// A get of a parameter, which may be read-only.
#[tactic(auto, unfolding(crate::specs::Decode::getting))]
fn get(id: u16) -> Result<Command, Refusal>
    ensures { result ≡ getting id }
{
    match settings::parameter_of(id) {
        Parameter::ReadWrite(_) | Parameter::ReadOnly(_) => {
            Ok(Command::Report(Layout::Parameter(id)))
        }
        Parameter::Unknown => Err(Refusal::WrongParameter),
    }
}

// A set of a parameter: its id is looked at before the bytes of its value are.
#[tactic(auto, unfolding(crate::specs::Decode::setting, crate::specs::Decode::valued, crate::specs::Decode::value_part))]
fn set(id: u16, transfer: &[u8]) -> Result<Command, Refusal>
    ensures { result ≡ setting id transfer.now }
{
    match settings::parameter_of(id) {
        Parameter::ReadWrite(t) => {
            let value = value::read(t, wire::rest(transfer, 6))?;
            Ok(Command::SetParameter(id, value))
        }
        Parameter::ReadOnly(_) | Parameter::Unknown => Err(Refusal::WrongParameter),
    }
}

// A reset of one parameter.
#[tactic(auto, unfolding(crate::specs::Decode::resetting))]
fn reset(id: u16) -> Result<Command, Refusal>
    ensures { result ≡ resetting id }
{
    match settings::parameter_of(id) {
        Parameter::ReadWrite(_) => Ok(Command::ResetParameter(id)),
        Parameter::ReadOnly(_) | Parameter::Unknown => Err(Refusal::WrongParameter),
    }
}

// A command of a name with what its bytes carry.
#[tactic(auto, unfolding(crate::specs::Decode::carried))]
fn carried(name: Name, transfer: &[u8]) -> Result<Command, Refusal>
    ensures { result ≡ carried name transfer.now }
{
    match name {
        Name::SystemReset => Ok(Command::SystemReset),
        Name::NoOperation => Ok(Command::Report(Layout::Short)),
        Name::CancelOperation => Ok(Command::CancelOperation),
        Name::Watchdog => Ok(Command::Report(Layout::Short)),
        Name::GroupOn => Ok(Command::GroupOn(group_in(transfer))),
        Name::GroupOff => Ok(Command::GroupOff(group_in(transfer))),
        Name::GroupState => Ok(Command::GroupState(group_in(transfer))),
        Name::ChannelOn => Ok(Command::ChannelOn(wire::byte(transfer, 4))),
        Name::ChannelOff => Ok(Command::ChannelOff(wire::byte(transfer, 4))),
        Name::SwitchToNominal => Ok(Command::SwitchToNominal),
        Name::SwitchToSafety => Ok(Command::SwitchToSafety),
        Name::GetOvercurrentFaultState => Ok(Command::Report(Layout::Faults)),
        Name::GetHousekeeping => Ok(Command::Report(Layout::Housekeeping)),
        Name::GetParameter => get(u16::read_at(transfer, 4)),
        Name::SetParameter => set(u16::read_at(transfer, 4), transfer),
        Name::ResetParameter => reset(u16::read_at(transfer, 4)),
        Name::ResetConfiguration => Ok(Command::ResetConfiguration),
        Name::LoadConfiguration => Ok(Command::LoadConfiguration),
        Name::SaveConfiguration => Ok(Command::SaveConfiguration(u16::read_at(transfer, 5))),
        Name::GetEngineeringHousekeeping => Ok(Command::Report(Layout::EngineeringHousekeeping)),
        Name::GetAbfPlacedState => Ok(Command::Report(Layout::AbfPlacedState)),
        Name::GetBatteryHousekeeping => Ok(Command::Report(Layout::BatteryHousekeeping)),
        Name::GetEngineeringBatteryHousekeeping => Ok(Command::Report(
            Layout::EngineeringBatteryHousekeeping,
        )),
    }
}

// Whether a transfer's key is not the one that its command has.
fn key_differs(key: Option<u8>, transfer: &[u8]) -> bool
    ensures { result ≡ key_differs key transfer.now }
{
    match key {
        Some(key) => wire::byte(transfer, 4) != key,
        None => false,
    }
}

// A command as the table has it: long enough, with its key, and then what it carries. A code that has no row is not
// listed; no list of a kind has one.
#[tactic(auto, unfolding(crate::specs::Decode::listed))]
fn by_list(entry: Option<Listed>, transfer: &[u8]) -> Result<Command, Refusal>
    ensures { result ≡ listed entry transfer.now }
{
    let row = entry.ok_or(Refusal::CodeNotListed)?;
    if transfer.len() < row.needed {
        return Err(Refusal::TooShort);
    }
    if key_differs(row.key, transfer) {
        return Err(Refusal::WrongKey);
    }
    carried(row.name, transfer)
}

// What a transfer is to a board of a kind and a BID that is in startup or not: the first check that applies answers.
// Kept: `in_startup` is one of the checks, by which a transfer is refused; the decoder knows no more of a mode.
pub fn decode(kind: Kind, bid: u8, in_startup: bool, transfer: &[u8]) -> Result<Command, Refusal>
    ensures value { result ≡ decode_of kind bid in_startup transfer.now }
    ensures number { decoded_number result ≡ first (checks kind bid (mode_alone in_startup) transfer.now) }
{
    let code = wire::byte(transfer, 2);
    let short = too_short(transfer);
    let ours = is_for(header_of(kind, bid), transfer);
    let listed = kinds::lists(kind, code);
    if short {
        return Err(Refusal::FewerThanFourBytes);
    }
    if in_startup {
        return Err(Refusal::InStartup);
    }
    if !ours {
        return Err(Refusal::NotThisBoard);
    }
    if !listed {
        return Err(Refusal::CodeNotListed);
    }
    by_list(listed_as(code), transfer)
}
