// What mounted calls give over runs of any length, and with unmounted requests, power cuts and mounts between them. The
// statements stand in specs/, the proofs in proofs/. There is no code here.
#![tactic(auto)]
