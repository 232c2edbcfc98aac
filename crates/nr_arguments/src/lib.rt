//! The program's arguments: the program that they select, with its file and its numbers.
#![tactic(auto)]

mod arguments;

pub use arguments::{
    ArgumentsFault, Program, USAGE, USUAL_JOURNAL, plain_arguments_ask, read_words,
};
