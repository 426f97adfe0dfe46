// The text that the listing prints. No code yet: what it is stands in specs/.
#![tactic(auto)]
