// No code: the theorems over the definitions of `rules`. specs/ says them, proofs/ proves them.

#![tactic(auto)]
