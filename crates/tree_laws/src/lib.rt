// What stands in a tree file's bytes where the rules' reader read something. All of it is laws, in proofs/: the compiler's proofs cite them.
#![tactic(auto)]
