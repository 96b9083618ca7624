// No code: what a refused command leaves, claimed of every board, each claim in a file of specs/ and its proof beside
// it in proofs/.
#![tactic(auto)]
