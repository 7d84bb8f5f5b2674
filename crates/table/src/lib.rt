// The table of document 01's values P1 to P10 and its one claim stand in specs/Table.antt and proofs/Right.antt; there is no code here.
#![tactic(auto)]
