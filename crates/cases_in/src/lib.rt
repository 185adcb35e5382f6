#![tactic(auto)]
// What the programs that run the cases of standard input have in common: the fields of a case, the bytes of a
// message, the modes by their numbers and the sessions.
mod bytes;
mod fields;
mod modes;
mod sessions;

pub use bytes::fill;
pub use fields::Fields;
pub use modes::{mode_of, number_of};
pub use sessions::{Given, counted, given_session, put_session};
