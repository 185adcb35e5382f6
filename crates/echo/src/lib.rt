#![tactic(auto)]
// ECHO 2.0: the rounds of its square, forward and backward, compression, sessions and digests.
mod bits;
mod compression;
mod counter;
mod digest_at_once;
mod families;
mod initial;
mod last_blocks;
mod lent;
mod mix_columns;
mod mode;
mod numbers;
mod refusal;
mod refusals;
mod run;
mod run_by_bytes;
mod run_by_tables;
mod session;
mod shift_rows;
mod sub_words;
mod waiting;

pub use compression::{compress, compress_wide};
pub use digest_at_once::{digest, digest_bits};
pub use mode::Mode;
pub use refusal::Refusal;
pub use refusals::check_digest;
pub use run::{rounds, rounds_back, rounds_back_wide, rounds_by_bytes, rounds_wide};
pub use session::{Refused, Session};
