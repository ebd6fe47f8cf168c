// One device as a rig.
ghost use Rattle.std.specs.Prelude.{◌≡◌, [], ◌∷◌};
ghost use Rattle.std.specs.List.{slice_get};
ghost use Rattle.std.specs.Option.{option_copied};
ghost use Rattle.device.specs.Asked.{SingleAsks};
ghost use Rattle.device.specs.Built.{single_few, single_lawful, single_ports, single_some};

use crate::answers::REFUSED;
use crate::device::Device;
use crate::rig::Rig;
use crate::rigs::UNHEARD;
use protocol::{EdgeTable, JAMMED};

// Its one port is 0.
#[derive(Drop)]
pub struct Single<D> {
    device: D,
}

impl<D> Single<D> {
    pub fn new(device: D) -> Single<D>
        ensures { result.device ≡ device }
    {
        Single { device }
    }

    pub fn device(&self) -> &D
        ensures { result.now ≡ self.now.device }
    {
        &self.device
    }

    // The device at a port; none where it is missing. `Row` has the same one-line bodies over its own `at`; sharing them would take
    // more lines than it saves.
    fn at(&self, port: u8) -> Option<&D>
        ensures { option_copied result ≡ slice_get (self.now.device ∷ []) port }
    {
        (port == 0).then_some(&self.device)
    }

    pub fn into_device(self) -> D
        ensures { result ≡ self.device }
    {
        self.device
    }
}

impl<D: Device> Rig for Single<D> {
    ghost ports = { λ r. single_ports (D.Device.meaning r.device) };

    ghost asks = { λ r p l a r'. SingleAsks D.Device.meaning r.device p l a r'.device };

    ghost lawful = { λ r. single_lawful (D.Device.meaning r.device) (D.Device.lawful r.device) };

    ghost some = { λ r. single_some (D.Device.meaning r.device) };

    ghost few = { λ r. single_few (D.Device.meaning r.device) };

    fn count(&self) -> u8 {
        1
    }

    fn edge(&self, port: u8, station: u8, letter: u8, answer: u8) -> Option<u8> {
        self.at(port)?.edge(station, letter, answer)
    }

    fn station(&self, port: u8) -> u8 {
        self.at(port).map_or(JAMMED, |device| device.station())
    }

    fn heard(&self, port: u8) -> u32 {
        self.at(port).map_or(UNHEARD, |device| device.heard())
    }

    fn has_table(&self, port: u8, table: &EdgeTable) -> bool {
        self.at(port).is_some_and(|device| device.has_table(table))
    }

    fn ask(&mut self, port: u8, letter: u8) -> u8 {
        match port {
            0 => self.device.ask(letter),
            _ => REFUSED,
        }
    }
}
