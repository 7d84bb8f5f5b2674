// The law of two runs has no code: it is about the definition of a solve.
#![tactic(auto)]
