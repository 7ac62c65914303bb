// Parts 3 to 6 of a step. A master loses its grant or is cut off in `losses`; who claims and who is granted is in `claims`.
#![tactic(auto)]

pub mod claims;
pub mod losses;
