#![tactic(auto)]
// One round of the AES (FIPS 197) and its way back, on a word of sixteen bytes with a key of sixteen bytes:
//
//     let out = aes_round::round(word, key);
//     let word_again = aes_round::round_back(out, key);
//
// or, forward, by tables that are made once, on a word and a key of four numbers of 32 bits:
//
//     let tables = aes_round::row_tables();
//     let out = aes_round::round_by_tables(&tables, word, key);
//
// with the field of bytes, the substitution and the mix of a column that it is made of. No routine refuses anything: each is
// total, and its contract is an equation with a definition of specs/. What the layer above needs to know of those definitions
// (the ways back undo each other, mix and row shift go through xor, results are bytes again) is in proofs/Promises.antt.
mod by_tables;
mod field;
mod mixing;
mod numbers;
mod rounds;
mod row_table_0;
mod row_table_1;
mod row_table_2;
mod row_table_3;
mod rows;
mod sub_back_table;
mod sub_table;
mod substitution;
mod tables;
mod way;

pub use by_tables::round_by_tables;
pub use field::{double, times};
pub use mixing::{mix, mix_back};
pub use numbers::mix_numbers;
pub use rounds::{round, round_back, two_rounds, two_rounds_back};
pub use rows::{RowTables, row_tables};
pub use substitution::{substitute, substitute_back};
