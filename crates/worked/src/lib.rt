// The proved cases and the worked listing: no code, only what stands on the whole house.
#![tactic(auto)]
