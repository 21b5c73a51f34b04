// What one sees who sees calls and answers alone: the observer of demands 1 and 3, in specs/, and laws of it that both proofs rest on; no code.
#![tactic(auto)]
