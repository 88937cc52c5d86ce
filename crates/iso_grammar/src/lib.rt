//! Tokens and lines of a script, and grammars over tokens.
#![tactic(auto)]

mod fault;
mod lex;
mod lines;
mod token;
mod tokens;
mod values;

pub use fault::{Cause, Checked, Fault, fault_at, least, place_of, unless};
pub use lex::{is_comment, tokens_of, tokens_rise};
pub use lines::first_line;
pub use token::{Kind, Token, same};
pub use tokens::{ReadError, Tokens};
pub use values::{integer, name, text, text_of, value_of};
