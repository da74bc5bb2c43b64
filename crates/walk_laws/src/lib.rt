// Laws only: of arrays and structs in memory, for proofs that walk compiled code by hand. None does today.
#![tactic(auto)]
