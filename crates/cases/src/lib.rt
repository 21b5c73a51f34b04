// The worked cases P1 to P10 and Tape X of document 01, over the rules alone: in specs/.
#![tactic(auto)]
