// Nothing to run: what one task's answer can change, and the call that changes it as a definition. The claims stand in specs/Claim.antt, their proofs in proofs/Main.antt; the code is in the crate impact.
#![tactic(auto)]
