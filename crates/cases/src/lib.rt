// The worked cases of the rules, as theorems by computation: see proofs/. There is no code here.

#![tactic(auto)]
