// The boards worked by hand: a table of them, and that each row follows from the definitions. There is no code.
#![tactic(auto)]
