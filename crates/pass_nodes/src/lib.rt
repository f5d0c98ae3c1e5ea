// Nothing to run: the single pass node by node. The claims stand in specs/Claim.antt, their proofs in proofs/Main.antt.
#![tactic(auto)]
