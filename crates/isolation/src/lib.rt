// What tenants can rely on, stated and proved over runs of any length. It stands in specs/ and proofs/. There is no code here.
#![tactic(auto)]
