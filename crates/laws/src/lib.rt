// Mathematics that more than one layer rests on. There is no code to run: see specs/ and proofs/.
#![tactic(auto)]
