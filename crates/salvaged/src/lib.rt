// What salvage gives and what a rebuilt image is, over every image and history. The statements stand in specs/, the proofs in proofs/. There is no code here.
#![tactic(auto)]
