// No code: each contract allows one answer, and one content of the lent buffers, for one input.
#![tactic(auto)]
