#![tactic(auto)]
// HMAC by FIPS 198-1 over ECHO digests: tags of messages, at once or over a session.
mod at_once;
mod comparison;
mod key_block;
mod tag_session;

pub use at_once::{Unverified, check_tag, make_tag, verify_tag};
pub use comparison::same;
pub use tag_session::{Checked, RefusedTag, TagSession};
