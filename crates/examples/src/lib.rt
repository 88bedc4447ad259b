// Tables of examples, and which call a line is for. The tables are the program's, `figures`.
#![tactic(auto)]

mod example;
mod group_calls;
mod table;

pub use example::Example;
pub use example_calls::show::title;
pub use table::each;
