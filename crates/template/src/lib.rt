// A template repeated (rules S). This crate has no code: specs/Repeat.antt has the repeated tree and its plan, specs/Call.antt the call as one
// value, specs/Claim.antt the claims.
#![tactic(auto)]
