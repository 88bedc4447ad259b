// The figures of document 01 that are not marked for proof, those of document 02, and an example of every cause and edge: each run by the library and
// printed, a line each. The stored output is what they should be. A section is a module of tables with a function `run`.
#![tactic(auto)]

mod codewords;
mod decoding;
mod encoding;
mod front;
mod groups;
mod pairs;
mod reading;
mod reflection;
mod splitting;

fn main() {
    reading::run();
    splitting::run();
    front::run();
    reflection::run();
    codewords::run();
    encoding::run();
    decoding::run();
    pairs::run();
    groups::run();
}
