// No code: what holds of every table that a build gives, and of every request on such a table.
#![tactic(auto)]
