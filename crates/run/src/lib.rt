// The panel as an abstract machine, its book and every promise: definitions in specs/, theorems in proofs/. No function.
#![tactic(auto)]
