// No code: proofs/ has passes over strips and grids in whole steps, and the engine on f32 that they follow.

#![tactic(auto)]
