// Raw and engineering readings, held apart from the words that come in to the bytes of a reply. The conversions of
// Tables 3-12 and 3-13 alone lead from one to the other.
#![tactic(auto)]

mod apart;
mod layout;
mod packs;
mod table;

pub use apart::{
    Engineering, Raw, append_engineering, append_packs, append_raw, convert, convert_all, measured,
    none_measured, pack_temperature, words,
};
pub use table::Row;
