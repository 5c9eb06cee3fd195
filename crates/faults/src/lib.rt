//! The faults of the program: the row of each number, the line that is printed of a fault, and the paragraph that explains it.
#![tactic(auto)]

mod explanation;
mod fields;
mod line;
mod refusal;
mod table;

pub use explanation::{Explanation, FieldNames};
pub use fields::Fields;
pub use line::fault_line;
pub use refusal::refusal_text;
