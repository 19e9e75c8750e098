// Demand 2, stated in specs/ and proved in proofs/. There is no code here.
#![tactic(auto)]
