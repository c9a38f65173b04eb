// The published search and its theory: definitions in specs/, laws in proofs/. There is no code here that runs.
#![tactic(auto)]
