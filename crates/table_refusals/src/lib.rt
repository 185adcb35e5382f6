#![tactic(auto)]
// What the programs that read a steering table print and say of one that is refused.
mod explaining;
mod refused;

pub use refused::Refused;
