// Only computed examples: the worked numbers of the scope document.
#![tactic(auto)]
