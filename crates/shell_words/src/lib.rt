//! What the shell reads and spells: its commands and what they take, calls, transactions and pages of images, its merge operators, and how
//! answers are printed; how one line is read after the other, and which are run again and again; drawings of pages. No database is needed.
#![tactic(auto)]

pub mod arguments;
pub mod calls;
pub mod choices;
pub mod draw;
pub mod groups;
pub mod how;
pub mod image;
pub mod images;
mod imports;
mod in_parts;
pub mod levels;
pub mod lines;
pub mod look;
pub mod named_trees;
pub mod names;
mod near;
pub mod operators;
pub mod page_parts;
pub mod read;
pub mod repeats;
pub mod script;
pub mod source;
pub mod subscribers;
pub mod sweeps;
pub mod table;
pub mod tell;
mod topics;
pub mod verdict;
pub mod words;
