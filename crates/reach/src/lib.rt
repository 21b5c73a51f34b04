// Demand 1, over the rules alone: what holds from Setup on. Statements in specs/, their proofs in proofs/; no code.
#![tactic(auto)]
