// The tree that a plan is, and the fixed numbering (rules R1 to R5). This crate has no code: specs/Tree.antt reads a tree off a plan,
// specs/Numbering.antt writes it as a plan again and tells when a plan is in the fixed numbering, specs/Claim.antt has the claims.
#![tactic(auto)]
