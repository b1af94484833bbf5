// Definitions and laws alone: a lent cylinder, its one file, and how the two are turned into each other.
#![tactic(auto)]
