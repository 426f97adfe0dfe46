// Planning: what it answers and what it leaves in the lent rows and plan. It answers the words of the plan or a refusal; the definitions of `specs/` say
// which. No code yet.
#![tactic(auto)]
