// The three demands, and what they rest on: proofs/Demands.
#![tactic(auto)]
