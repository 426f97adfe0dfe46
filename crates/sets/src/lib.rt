// The sets of a nonterminal and its visits. No code yet: what they are stands in specs/, what follows in proofs/.
#![tactic(auto)]
