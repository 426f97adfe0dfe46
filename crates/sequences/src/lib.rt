// Actions, what follows what, and the visit-sequences. No code yet: what they are stands in specs/, what follows in proofs/.
#![tactic(auto)]
