// Causes: which rules are in the way. Definitions in specs/, laws in proofs/. There is no code here that runs.
#![tactic(auto)]
