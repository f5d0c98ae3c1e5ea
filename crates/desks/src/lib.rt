// Plans with desks as definitions, and what is claimed of them: no code. The calls are in the crate desk_calls.
#![tactic(auto)]
