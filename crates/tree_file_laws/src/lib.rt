// The tree file, both ways, in proofs/: what is written is read back, what is read was written so, and which record passes a limit first. There is no code.
#![tactic(auto)]
