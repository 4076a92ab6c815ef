// A table that is full: the edges of 02, (v), as rows of the rule book's machine. There is no code here: proofs/Full
// has the rows and the theorem.
#![tactic(auto)]
