// Demand 3, the serial order, over the rules alone. Statements and examples in specs/, their proofs in proofs/; no code.
#![tactic(auto)]
