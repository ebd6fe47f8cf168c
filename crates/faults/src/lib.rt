// Why a call refuses, and where: a cause from one of four layers, and a place.
#![tactic(auto)]

mod causes;
mod fault;
mod layer;
mod text;

pub use causes::{BookCause, Cause, KeyCause, LayoutCause, StageCause};
pub use fault::{Fault, NOWHERE};
pub use layer::Layer;
