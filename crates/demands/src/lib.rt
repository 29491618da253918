// The three demands: no code. specs/ states each as a predicate over any check and any evaluation, and proofs/ proves it of those that the contracts of `circuits` cite.
#![tactic(auto)]
