// What a move to another chip gives, over every source and target, and what may follow it. The statements stand in
// specs/, the proofs in proofs/. There is no code here.
#![tactic(auto)]
