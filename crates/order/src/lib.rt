// EDP and what it is for a grammar to be ordered. No code yet: what they are stands in specs/, what follows in proofs/.
#![tactic(auto)]
