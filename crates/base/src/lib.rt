// What every crate stands on, as definitions and laws alone: choices, tests and lists.
#![tactic(auto)]
