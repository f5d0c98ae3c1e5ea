// Nothing to run: what sites on hosts of their own get, without the simulation. What a host has to see to, and that the simulation then covers
// it, is claimed in specs/Hosts.antt and proved in proofs/Main.antt; what a lie does is in proofs/Cases.antt.
#![tactic(auto)]
