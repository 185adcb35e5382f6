#![tactic(auto)]
// Steering tables: reading and writing a record at a place, counting a table's records, and a table's fingerprint.
mod counting;
mod fingerprinting;
mod kinds;
mod numbers;
mod reading;
mod records;
mod refusals;
mod writing;

pub use counting::count;
pub use fingerprinting::fingerprint;
pub use reading::read_at;
pub use records::{HoldTime, JoinFloor, NodeAddress, Note, Radio, Record};
pub use refusals::{Refusal, WriteRefusal};
pub use writing::{kind_of, write_at, write_body_at};
