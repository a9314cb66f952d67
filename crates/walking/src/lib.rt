// What proofs share that walk a function's code by hand: no code, only proofs/.
#![tactic(auto)]
