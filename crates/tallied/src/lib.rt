// What the tally tells of erases (request #104), stated in specs/ and proved in proofs/. There is no code here.
#![tactic(auto)]
