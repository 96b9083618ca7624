// No code: what changes in a tick, and by what, each claim in a file of specs/ and its proof beside it in proofs/.
#![tactic(auto)]
