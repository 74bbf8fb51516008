#![tactic(auto)]

// Ports of the gate controller: readings come in, bytes go out.
mod board;
mod board_port;
mod memory;
mod place;
mod ports;
mod reading;
mod ring;
mod ring_use;
mod service;
mod service_port;
mod shown_bytes;
#[cfg(test)]
mod tests;

pub use board::BoardPort;
pub use ports::Port;
pub use reading::Reading;
pub use service::ServicePort;
