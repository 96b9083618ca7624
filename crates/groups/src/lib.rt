// No code: which channels a command alters, and what the overcurrent counts are, each claim in a file of specs/ and its
// proof beside it in proofs/.
#![tactic(auto)]
