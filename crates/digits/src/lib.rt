// A hexadecimal digit, numbers of a fixed width, and decimal numbers.

#![tactic(auto)]

pub mod decimal;
pub mod read;
pub mod word;
pub mod write;
