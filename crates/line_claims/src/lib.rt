// Definitions and theorems only: the lines that have a record are exactly those that spell one.
#![tactic(auto)]
