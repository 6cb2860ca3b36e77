// What is proved of watches that share a pool, whatever calls of each come in whatever order: no code, all of it stands
// in specs/.

#![tactic(auto)]
