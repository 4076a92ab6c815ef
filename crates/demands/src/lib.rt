// Demand 3 of the code: the ledger's laws, of whoever calls the desk again and again. There is no code here: see specs.
#![tactic(auto)]
