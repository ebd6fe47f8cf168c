// The RUN of a part: for each handle of it, a handle of the running part.
ghost use Rattle.std.specs.Prelude.{◌≡◌, take};
ghost use Rattle.protocol.specs.Lists.{all};
ghost use Rattle.rules.specs.Lists.{from};
ghost use Rattle.script.specs.Runs.{fits as fits_at, run_keys, suits as suits_at};
ghost use Rattle.script.specs.Walk.{Leaves};

use crate::keys::{Keys, at, distinct, hand_over};
use crate::part::{HANDLES, NONE, Part};
use faults::{Fault, KeyCause, Layer};

#[derive(Clone, Copy)]
pub struct Run<'a> {
    pub running: &'a Part,
    pub part: &'a Part,
    pub bindings: [u8; HANDLES],
}

impl Run<'_> {
    // A handle here for each handle of the part that is run, and none beyond.
    pub(crate) fn fits(&self) -> bool
        ensures { result ≡ all (fits_at self.now.bindings self.now.part.now.own self.now.running.now.own) (from 0 8) }
    {
        let theirs = self.part.own as usize;
        let ours = self.running.own;
        self.bindings.iter().enumerate().all(|(handle, binding)| {
            if handle < theirs {
                *binding < ours
            } else {
                *binding == NONE
            }
        })
    }

    fn bound(&self) -> &[u8]
        ensures { result.now ≡ take self.now.part.now.own self.now.bindings }
    {
        &self.bindings[..self.part.own as usize]
    }

    // The bound handles have the kinds, and the stations, with which the part begins.
    fn suits(&self, keys: &Keys) -> bool
        ensures { result ≡ all (suits_at self.now.running.now keys.now self.now.part.now self.now.bindings) (from 0 self.now.part.now.own) }
    {
        let running = self.running;
        self.bound().iter().zip(&self.part.handles).all(|(binding, handle)| {
            running.kind(*binding) == handle.kind && at(keys, *binding) == handle.enters
        })
    }

    // The keys are those before the RUN, which stands at the place, and then those after it.
    pub(crate) fn check(&self, place: u16, keys: &mut Keys) -> Result<(), Fault>
        ensures { Leaves result keys.new (run_keys self.now.running.now place self.now.part.now self.now.bindings keys.old) }
    {
        if !distinct(self.bound()) {
            return Err(KeyCause::BoundTwice.at(place));
        }
        if !self.suits(keys) {
            return Err(KeyCause::BoundWrong.at(place));
        }
        hand_over(keys, self.bound(), &self.part.handles);
        Ok(())
    }
}
