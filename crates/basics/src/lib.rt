// Tests and lists that every later definition is written with. No code: definitions in specs/, laws in proofs/.
#![tactic(auto)]
