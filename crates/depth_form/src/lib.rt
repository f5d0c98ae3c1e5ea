// Depth forms (rules R6 to R10): a plan as kinds and depths, in the order of the fixed numbering. This crate has no code: specs/Form.antt says
// which forms there are and what a plan and a form make of each other, specs/Calls.antt what the calls answer and leave, specs/Claim.antt has
// the claims.
#![tactic(auto)]
