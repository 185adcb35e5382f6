#![tactic(auto)]
// Digits in words of the command line and in lines of lists: the value of one, and the number, the bytes or the salt that they stand for.
mod hexadecimal;
mod numbers;
mod salts;

pub use hexadecimal::{bytes_in, nibble};
pub use numbers::number_in;
pub use salts::salt_in;
