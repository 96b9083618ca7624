// No code: the boundary table, demand 3 on the board and the wrong programs, each claim in a file of specs/ and its
// proof beside it in proofs/.
#![tactic(auto)]
