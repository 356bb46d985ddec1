// No code: specs/ and proofs/ have the laws of a sheet's passes on which the list and the price clause stand.

#![tactic(auto)]
