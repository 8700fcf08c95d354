//! JSON values without floats, and the paths into them.
//!
//! A [`Tree`] owns its texts. [`read`] and [`write`] are its JSON text (RFC
//! 8259). A [`Path`] is a list of steps, each a text; its JSON Pointer (RFC
//! 6901) is read by [`read_pointer`] and printed by [`print_path`].
#![tactic(auto)]

mod build;
mod copies;
mod depths;
mod inside;
mod judge;
pub mod laws;
mod member_test;
mod pass;
mod path;
mod pointer;
mod tail;
mod text;
mod tokens;
mod tree;
mod tree_values;
mod whole;
mod whole_number;

pub use copies::{copy, copy_members};
pub use depths::depth;
pub use inside::{find, find_behind, get, position};
pub use member_test::{MemberTest, every_member};
pub use path::{Path, PathList, Steps, copy_paths, digits, is_prefix};
pub use pointer::{PointerError, print_path, read_pointer};
pub use tail::{ListTail, TailOrTree};
pub use text::{JsonReader, ReadError, read, write, write_list};
pub use tree::{Tree, TreeList, TreeMap};
pub use tree_values::{pointer_of, pointers_of, texts_of, whole_up_to};
pub use whole::Whole;
