//! Numbered blocks of 4,096 octets, and their places in octets laid end to end.
#![tactic(auto)]

mod blocks;

pub use blocks::{BLOCK_SIZE, Blocks, block_of, put_block, put_in_block, put_part};
