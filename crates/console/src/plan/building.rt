// A plan has at most eight layers, and a device is built as it says.
ghost use Rattle.std.specs.Prelude.{◌≡◌, ℕ, ◌≤◌, IfOk, Ok, Err, MatchResult, map};
ghost use Rattle.std.specs.Option.{option_map};
ghost use Rattle.console.specs.Layers.{built};
ghost use Rattle.console.specs.Plans.{mounted, plan_of, planned, replies_in};

use super::Plan;
use crate::layer::Layer;
use crate::layered::Build;
use faults::Fault;
use std::alloc::{AllocError, Global};

// As deep as the nest of types that are built.
const LAYERS: usize = 8;

impl Plan {
    // None where there are more than eight layers.
    pub fn new(layers: Vec<Layer>, replies: Vec<u8>) -> Option<Plan>
        ensures { option_map planned result ≡ plan_of layers.items replies.items }
    {
        if layers.len() <= LAYERS {
            Some(Plan { layers, replies })
        } else {
            None
        }
    }

    // The fault is that of a map.
    fn build<'a, D: Build<'a>>(&'a self) -> Result<D, Fault>
        requires { 8 ≤ D.depth }
        ensures built { MatchResult result (λ device. built (planned self.now).layers ≡ Ok (D.Device.meaning device)) (λ fault. built (planned self.now).layers ≡ Err fault) }
        ensures replies { IfOk result (λ device. D.replies_under device ≡ (planned self.now).replies) }
    {
        D::build(&self.layers, &self.replies)
    }
}

// All of them in order, or the first fault.
pub(crate) fn build_all<'a, D: Build<'a> + Drop>(
    heap: Global,
    plans: &'a [Plan],
) -> Result<Result<Vec<D>, Fault>, AllocError>
    requires { 8 ≤ D.depth }
    ensures mounted { IfOk result (λ r. MatchResult r (λ devices. mounted (map planned plans.now) ≡ Ok (map D.Device.meaning devices.items)) (λ fault. mounted (map planned plans.now) ≡ Err fault)) }
    ensures replies { IfOk result (λ r. IfOk r (λ devices. map D.replies_under devices.items ≡ replies_in (map planned plans.now))) }
{
    let mut devices = Vec::new(heap);
    for plan in plans {
        match plan.build::<D>() {
            Ok(device) => devices.push(device)?,
            Err(fault) => return Ok(Err(fault)),
        }
    }
    Ok(Ok(devices))
}
