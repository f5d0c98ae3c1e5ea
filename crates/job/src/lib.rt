// Nothing to run: what a job is, as a definition (specs/Simulation.antt), and what holds of every list of steps. Demand 3 is claimed in
// specs/Claim.antt and proved in proofs/Main.antt.
#![tactic(auto)]
