// Demand 3: the two engines agree, and the marks show the chosen chain. Statements and laws, no code.

#![tactic(auto)]
