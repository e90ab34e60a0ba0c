// Nothing runs here: what Intel's manual says, the statements of the demands, and their proofs.
#![tactic(auto)]
