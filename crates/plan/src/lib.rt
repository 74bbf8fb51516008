#![tactic(auto)]

// Lawful plans: what a plan of a program is, and the rule of each instruction at a place.
mod coded;
mod kind;
mod next;
mod planned;
mod row;
mod rules;
mod successor;
mod units;

pub use coded::Coded;
pub use kind::Kind;
pub use next::Next;
pub use planned::Planned;
pub use row::Row;
pub use rules::row_of;
pub use successor::Successor;
