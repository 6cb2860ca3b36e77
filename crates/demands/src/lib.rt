// What is proved of whole lists of calls (demands 2 and 3): no code, all of it stands in specs/.

#![tactic(auto)]
