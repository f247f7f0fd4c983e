// Theorems only: demand 1, the refusals, and that a sensor which works once works on.
#![tactic(auto)]
