// What it is to compile a statement: specs/ says it, and proofs/ has the laws of steps that follow one another. There is no code here.
#![tactic(auto)]
