// A replay script's lines: the fields of one that is read, and the text of one that is printed.
#![tactic(auto)]

pub mod printing;
pub mod reading;
