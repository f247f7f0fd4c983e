// Demand 3: two runs of service requests that are apart, however interleaved. Theorems only.
#![tactic(auto)]
