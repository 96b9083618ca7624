// No code: the modes with one force-enabled channel, and how long that channel is off and on, over every run.
#![tactic(auto)]
