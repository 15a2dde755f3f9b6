// Two machines that agree on what may be seen, and that a step keeps them so. Definitions and theorems alone.
#![tactic(auto)]
