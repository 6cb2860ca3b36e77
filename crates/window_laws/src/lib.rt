// What is proved of a window and its step: no code, all of it stands in specs/.

#![tactic(auto)]
