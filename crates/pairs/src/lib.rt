// The law of the pair has no code: it is about the definitions of two calls, and of the one that they replaced.
#![tactic(auto)]
