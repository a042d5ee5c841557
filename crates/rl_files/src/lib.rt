//! Trees of files: directories with the files in them. Reads files, walks through directories, and replaces files.
#![tactic(auto)]

mod glob;
mod host;
mod memory;
mod path_list;
mod path_texts;
mod replace;
mod tree;
mod visible;
mod walk;
mod whole_file;

pub use crate::glob::is_excluded;
pub use crate::host::{Host, LONGEST};
pub use crate::memory::{
    MemoryDirectory, MemoryFile, MemoryReplacement, MemoryReplacements, MemoryTree, Unwritable,
};
pub use crate::path_list::{Unread, push_listed_paths};
pub use crate::path_texts::{escaped_non_utf8_path, path_text};
pub use crate::replace::Replace;
pub use crate::tree::{PathError, Tree};
pub use crate::visible::{make_visible, push_visible, visible_text};
pub use crate::walk::{Selection, Visit, Walk, WalkEntry, WalkError};
pub use rl_writing::{is_control_invisible_or_bidi, is_invisible_or_bidi};
