// Expressions in parts: specs/ says what is done before, between and behind the expressions inside, and proofs/ has the laws that the parts make the whole.
// There is no code here.
#![tactic(auto)]
