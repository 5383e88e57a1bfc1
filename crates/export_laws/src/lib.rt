// No code: laws for proofs by hand, which stand in proofs/.
#![tactic(auto)]
