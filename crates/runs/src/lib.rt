// Nothing to run: what holds of every run of the central rule. The claims stand in specs/Claims.antt, their proofs in proofs/Main.antt.
#![tactic(auto)]
