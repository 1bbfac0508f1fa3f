// The three demands over every sequence of calls: promises in specs/, proofs in proofs/. There is no code here.
#![tactic(auto)]
