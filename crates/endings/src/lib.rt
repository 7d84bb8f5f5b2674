// How a run ends has no code: the laws are about the definitions of the preparation and the solve.
#![tactic(auto)]
