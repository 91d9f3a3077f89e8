#![tactic(auto)]

// No code: what every crate above says and proves by. The definitions stand in specs/, the laws in proofs/.
