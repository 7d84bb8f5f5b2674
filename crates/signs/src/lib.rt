// The sign laws have no code: they are about the definitions of the preparation and the solve.
#![tactic(auto)]
