// The console's device: a simulated projector under layers.
ghost use Rattle.std.specs.Prelude.{◌≡◌, ℕ, ◌≤◌, List, suc, length, Ok, Err, IfOk, MatchResult};
ghost use Rattle.device.specs.Projector.{replies_of};
ghost use Rattle.console.specs.Layers.{built, layered_lawful, layered_meaning, layered_replies};

use crate::layer::Layer;
use device::{Device, LetterMap, Patch, Projector, Trail};
use faults::Fault;
use protocol::EdgeTable;

// A projector, or one layer over another device; layers in each other are a nest of these types.
#[derive(Drop)]
pub enum Layered<'a, D> {
    Bare(Projector<'a>),
    Trailed(Trail<D>),
    Patched(Patch<D>),
}

impl<D: Device> Device for Layered<'_, D> {
    ghost meaning = { layered_meaning D.Device.meaning };

    ghost lawful = { layered_lawful D.Device.meaning D.Device.lawful };

    fn edge(&self, station: u8, letter: u8, answer: u8) -> Option<u8> {
        match self {
            Layered::Bare(projector) => projector.edge(station, letter, answer),
            Layered::Trailed(trail) => trail.edge(station, letter, answer),
            Layered::Patched(patch) => patch.edge(station, letter, answer),
        }
    }

    fn station(&self) -> u8 {
        match self {
            Layered::Bare(projector) => projector.station(),
            Layered::Trailed(trail) => trail.station(),
            Layered::Patched(patch) => patch.station(),
        }
    }

    fn heard(&self) -> u32 {
        match self {
            Layered::Bare(projector) => projector.heard(),
            Layered::Trailed(trail) => trail.heard(),
            Layered::Patched(patch) => patch.heard(),
        }
    }

    fn letter_fits(&self, letter: u8, table: &EdgeTable, named: u8) -> bool {
        match self {
            Layered::Bare(projector) => projector.letter_fits(letter, table, named),
            Layered::Trailed(trail) => trail.letter_fits(letter, table, named),
            Layered::Patched(patch) => patch.letter_fits(letter, table, named),
        }
    }

    fn has_table(&self, table: &EdgeTable) -> bool {
        match self {
            Layered::Bare(projector) => projector.has_table(table),
            Layered::Trailed(trail) => trail.has_table(table),
            Layered::Patched(patch) => patch.has_table(table),
        }
    }

    fn ask(&mut self, letter: u8) -> u8 {
        match self {
            Layered::Bare(projector) => projector.ask(letter),
            Layered::Trailed(trail) => trail.ask(letter),
            Layered::Patched(patch) => patch.ask(letter),
        }
    }
}

// A device that is built from layers and replies.
pub(crate) trait Build<'a>: Device {
    // how many layers it takes
    ghost depth: { ℕ };

    // what the projector under all layers will answer to the lamp query
    ghost replies_under: { Self → List ℕ };

    // The outermost layer first; the fault is that of a map.
    fn build(layers: &[Layer], replies: &'a [u8]) -> Result<Self, Fault>
        requires { length layers.now ≤ depth }
        ensures built { MatchResult result (λ device. built layers.now ≡ Ok (Self.meaning device)) (λ fault. built layers.now ≡ Err fault) }
        ensures replies { IfOk result (λ device. replies_under device ≡ replies.now) };
}

impl<'a> Build<'a> for Projector<'a> {
    ghost depth = { 0 };

    ghost replies_under = { replies_of };

    fn build(_layers: &[Layer], replies: &'a [u8]) -> Result<Projector<'a>, Fault> {
        Ok(Projector::new(replies))
    }
}

impl<'a, D: Build<'a>> Build<'a> for Layered<'a, D> {
    ghost depth = { suc D.depth };

    ghost replies_under = { layered_replies D.replies_under };

    fn build(layers: &[Layer], replies: &'a [u8]) -> Result<Layered<'a, D>, Fault> {
        match layers {
            [] => Ok(Layered::Bare(Projector::new(replies))),
            [Layer::Trail, below @ ..] => {
                let below = D::build(below, replies)?;
                Ok(Layered::Trailed(Trail::new(below)))
            }
            [Layer::Patch(bytes), below @ ..] => {
                let map = LetterMap::new(bytes)?;
                let below = D::build(below, replies)?;
                Ok(Layered::Patched(Patch::new(map, below)))
            }
        }
    }
}
