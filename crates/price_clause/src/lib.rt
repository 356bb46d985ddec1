// No code: specs/ has the price clause, proofs/ its proof, of the rule of a pass and of the call that runs it.

#![tactic(auto)]
