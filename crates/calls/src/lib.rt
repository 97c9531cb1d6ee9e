// What a call of a function is, over the contract that the toolchain makes of it: definitions alone.
#![tactic(auto)]
