// Reading the one file of a cylinder into lent slices.
#![tactic(auto)]

mod judging;
mod reading;
mod table;
mod unpacking;

pub use reading::read_cylinder;
