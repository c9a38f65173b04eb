// One bit at one place explained: definitions in specs/, laws in proofs/. There is no code here that runs.
#![tactic(auto)]
