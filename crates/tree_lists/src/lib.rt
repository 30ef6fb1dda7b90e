//! The lists that a database has of its trees (`tree_list`) and of their merge operators (`operators`). Beside each name and each operator
//! is the number of its tree.
#![tactic(auto)]

mod operators;
mod tree_list;

pub use operators::{operator_of, set_operator, take_operator};
pub use tree_list::{names_of, number_of, put_tree, reserve_one, take_name};
