// Theorems only: demand 2, the promises of the exported routines and the sensors that they keep out.
#![tactic(auto)]
