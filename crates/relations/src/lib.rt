// The dependency relations DP, IDP and IDS. No code yet: what they are stands in specs/, that the two ways of saying it agree in proofs/.
#![tactic(auto)]
