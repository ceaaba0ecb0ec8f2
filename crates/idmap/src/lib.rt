// Id maps: definitions (specs/) and laws (proofs/) alone. Reading and writing them stand in crates of their own and share these.
#![tactic(auto)]
