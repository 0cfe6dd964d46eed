// Rules, conflicts and the exactly-one theorem: definitions in specs/, theorems in proofs/. No function.
#![tactic(auto)]
