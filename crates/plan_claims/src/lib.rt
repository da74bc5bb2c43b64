// Definitions and theorems only: every plan is a run of the calls that the claim is about.
#![tactic(auto)]
