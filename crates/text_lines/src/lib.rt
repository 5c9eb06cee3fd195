//! Bytes read as text, and the line of the first byte that is not UTF-8; texts cut at a mark; decimal numbers and hexadecimal digits.
#![tactic(auto)]

mod cutting;
mod digits;
mod numbers;
mod reading;
#[cfg(test)]
mod tests;

pub use cutting::{after, cut, finishes};
pub use digits::hex_digit;
pub use numbers::count_of;
pub use reading::text_or_line;
