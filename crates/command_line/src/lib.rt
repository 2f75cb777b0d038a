//! What the program is asked to do, by the words of its command line, and the texts of its help.
//!
//! Promises: it is safe and total.
//! Stands on: clap. Must not know: vaults, files, sockets, and anything that a contract should say.
//! Only tested, by `tools/try-program`: what the words ask for.
//! Neither: texts of help and usage.
//! Start at: `asked_of`, in words.rt; script_help.rt has what a script may say.
#![tactic(auto)]

mod script_help;
mod words;

pub use words::{Asked, Serving, Task, asked_of};
