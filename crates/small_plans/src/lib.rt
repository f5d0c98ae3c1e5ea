// All small plans (rules T). This crate has no code: specs/Order.antt has their order and the next one, specs/Call.antt the call as one value,
// specs/Claim.antt the claims.
#![tactic(auto)]
