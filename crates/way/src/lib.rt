// Nothing to run: targets, and the answers that lead to them. The claims stand in specs/Claim.antt, their proofs in proofs/Main.antt.
#![tactic(auto)]
