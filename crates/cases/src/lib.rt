// The refusals of document 01 as propositions. There is no code here: `specs/` says each case in the document's words, `proofs/` that the verdicts are these.
#![tactic(auto)]
