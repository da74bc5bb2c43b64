// Definitions and theorems only: the claim about every list of calls from every accepted build.
#![tactic(auto)]
