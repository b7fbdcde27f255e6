// What is known of a statement that holds no statement: specs/ says what compiling it is, and proofs/ has the laws of its value. There is no code here.
#![tactic(auto)]
