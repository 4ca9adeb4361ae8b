// What follows from the definition of the binary form. It has no code.

#![tactic(auto)]
