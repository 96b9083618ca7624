// No code: how engineering readings lie to the exact values of Tables 3-12 and 3-13.
#![tactic(auto)]
