// Mathematics only, nothing of stormwater: definitions in specs/, laws in proofs/. There is no code here.
#![tactic(auto)]
