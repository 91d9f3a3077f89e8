// No code: the axioms of the papers as theorems over the accepted events. The words and the axioms stand in specs/, the proofs in proofs/.
#![tactic(auto)]
