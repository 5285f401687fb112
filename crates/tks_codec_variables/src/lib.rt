//! Variables and procedures, as bytes.
#![tactic(auto)]

mod globals;
mod laws;
mod parameter;
mod procedure;
mod table;
mod variables;

pub use laws::spellings_are_lawful;
pub use table::{Named, put_table, table_length, table_of};
pub use variables::{put_variables, variables_length, variables_of};
