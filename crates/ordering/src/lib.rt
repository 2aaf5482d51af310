// Orders, lists in order, and the order of paths in which an entry's directories stand next to it: see specs/. There is no code here.

#![tactic(auto)]
