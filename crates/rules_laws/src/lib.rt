// Laws of the rules, in proofs/: demand 3, the checker's facts, what more memory may change, bounds on sizes. There is no code.
#![tactic(auto)]
