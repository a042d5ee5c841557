//! Functions that the programs of this repository share, and the commands of `rl_tool`. They read a whole input, write whole lines,
//! and end the program with a status. The output line of a literal is its kind, its decoded value as a newly written literal, and its
//! suffix. A command reads the whole input as one literal, as a list of literals, or as attributes, and writes their lines.
#![tactic(auto)]

pub mod attr;
mod attribute_lines;
mod command;
mod command_line;
mod digits;
mod exit;
mod found_line;
mod line;
mod list;
mod lit_line;
mod program_error;
mod rejection;
pub mod run;
mod streams;

pub use crate::attribute_lines::entry_lines;
pub use crate::command::Command;
pub use crate::command_line::run_with_arguments;
pub use crate::digits::decode_hex;
pub use crate::exit::{Ending, RunError, arguments, finish};
pub use crate::found_line::{bool_word, push_found_line};
pub use crate::line::{
    label_of, need_no_escapes, push_line_of_kind, push_unescaped_line, push_verbatim_line,
    unescaped_value,
};
pub use crate::lit_line::{output_line, push_literal_line};
pub use crate::program_error::ProgramError;
pub use crate::rejection::Rejection;
pub use crate::streams::{WriteError, read_whole, text_of, write_bytes, write_whole};
