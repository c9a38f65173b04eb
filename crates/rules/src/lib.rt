// The meaning of the fourteen kinds, fits and tight tables: definitions in specs/, laws in proofs/. There is no code here that runs.
#![tactic(auto)]
