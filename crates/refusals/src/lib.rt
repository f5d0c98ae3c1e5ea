// Nothing to run: what every call with lent bytes leaves where it is refused, and which plans are not refused. Demand 1 is claimed in
// specs/Claim.antt and proved in proofs/Main.antt.
#![tactic(auto)]
