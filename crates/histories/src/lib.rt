#![tactic(auto)]

// No code: what is promised of judging, one event and any run of events. The definitions stand in specs/, the proofs in proofs/.
