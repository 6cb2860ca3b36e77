// What is proved of the program's lines: no code, all of it stands in specs/.

#![tactic(auto)]
