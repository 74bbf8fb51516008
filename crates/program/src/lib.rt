#![tactic(auto)]

// What every layer of the gate controller names: faults, counts, names, records of labels and units, and the
// assembled program.
mod assembled;
mod counts;
mod fault;
mod faults;
mod label;
mod name;
mod naming;
mod programs;
mod refused;
mod section;
mod unit;

pub use assembled::Assembled;
pub use counts::Counts;
pub use fault::{AssemblyCause, CheckCause, Fault, MachineCause, Place, PortCause, Text};
pub use label::Label;
pub use name::Name;
pub use naming::{is_word, small_letter};
pub use refused::Refused;
pub use section::Section;
pub use unit::Unit;
