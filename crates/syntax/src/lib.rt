#![tactic(auto)]

// One line of CEIASM: from bytes to a statement.
mod bytes;
mod extents;
mod lines;
mod ranges;
mod statements;
mod tokens;

pub use extents::cells_of;
pub use lines::{Lines, line_in, next_line};
pub use ranges::in_range;
pub use statements::{Argument, LineFault, Statement, statement_of};
pub use tokens::{Token, Tokens, next_token};
