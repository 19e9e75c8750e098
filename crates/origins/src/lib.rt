// Where a slot's mark comes from, as a theorem over histories with cuts. Its statement stands in specs/, its proof in proofs/. There is
// no code here.
#![tactic(auto)]
