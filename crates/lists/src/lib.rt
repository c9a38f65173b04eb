// Lists: parts, puts, zeros, series, what a test tells, and laws of lists and Bools that every crate uses. There is no code here that runs.
#![tactic(auto)]
