// Only laws: from the drive's bit cells to the record and back.
#![tactic(auto)]
