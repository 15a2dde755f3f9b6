// The demands as theorems, which cite those of the crates below: a page to read, in specs/. There is no code.
#![tactic(auto)]
