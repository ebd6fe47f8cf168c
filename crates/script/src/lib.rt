// Scripts: reading their commands and parts, and the check of one.
#![tactic(auto)]

mod answers;
mod block;
mod blocks;
mod command;
mod draft;
mod header;
mod keys;
mod level;
mod part;
mod reader;
mod run;
mod scope;
mod script;
mod successors;
#[cfg(test)]
mod tests;
mod walk;

pub use answers::{ANSWERS, ByAnswer};
pub use block::Block;
pub use blocks::Blocks;
pub use command::Command;
pub use part::HANDLES;
pub use script::Script;
