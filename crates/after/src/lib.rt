// What each accepted writing call leaves, in the words that the history goes by: see specs/. There is no code here.

#![tactic(auto)]
