// Laws of the rules, a folder for each subject: see proofs/. There is no code here.

#![tactic(auto)]
