// One record of all that is stated of the library, and its proof: no code, all of it stands in specs/.

#![tactic(auto)]
