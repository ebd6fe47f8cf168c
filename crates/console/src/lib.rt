// The console: lines of input, and the answer to each.
#![tactic(auto)]

mod answer;
mod desk;
mod devices;
mod digits;
mod layer;
mod layered;
mod line;
mod nest;
mod numbers;
mod plan;
mod ports;
mod reply;
mod session;
mod stage;
#[cfg(test)]
mod tests;
mod words;

pub use answer::Answer;
pub use desk::Desk;
pub use layer::Layer;
pub use layered::Layered;
pub use line::{Command, Line, NotUnderstood, parse_line};
pub use plan::Plan;
pub use ports::{PortLine, by_port, port_lines};
pub use reply::write_reply;
pub use session::transcript;
pub use stage::{StageCommand, parse_stage};
