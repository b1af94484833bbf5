// The calls of `station` under their names for C, as an archive that C and Rust link.
#![tactic(auto)]

pub mod bit_cells;
pub mod cylinders;
pub mod reading;
pub mod writing;
