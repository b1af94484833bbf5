// The calls that read any lent track, sound or damaged, by its candidates: Find, Walk and Pair find.
#![tactic(auto)]

pub mod candidate;
pub mod finding;
pub mod pair;
pub mod walk;

pub use finding::{Part, Wanted, find, find_part};
pub use pair::{Paired, pair_find, pair_find_part};
pub use walk::{Visited, step_at, step_lent};
