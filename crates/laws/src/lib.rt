// Nothing runs here: choice, lists and computed tests, with their laws, for the crates above.
#![tactic(auto)]
