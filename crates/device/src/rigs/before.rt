// A device before a rig.
ghost use Rattle.std.specs.Prelude.{◌≡◌};
ghost use Rattle.device.specs.Asked.{BeforeAsks};
ghost use Rattle.device.specs.Built.{before_few, before_lawful, before_ports, before_some};
ghost use Rattle.device.specs.Parts.{IsPart};

use crate::answers::REFUSED;
use crate::device::Device;
use crate::rig::Rig;
use crate::rigs::{PORTS, UNHEARD};
use protocol::{EdgeTable, JAMMED};

// The device is port 0, and each port of the rig comes one later; a device behind the eighth is no port.
#[derive(Drop)]
pub struct Before<D, R> {
    first: D,
    rest: R,
}

// To whom a port belongs: the first device, or the rest, which counts its own ports from 0. Names read better here than an option.
enum Part {
    First,
    Rest(u8),
}

fn part_of(port: u8) -> Option<Part>
    ensures { IsPart port result }
{
    match port {
        0 => Some(Part::First),
        1..PORTS => Some(Part::Rest(port - 1)),
        _ => None,
    }
}

impl<D, R> Before<D, R> {
    pub fn new(first: D, rest: R) -> Before<D, R>
        ensures first { result.first ≡ first }
        ensures rest { result.rest ≡ rest }
    {
        Before { first, rest }
    }

    pub fn first(&self) -> &D
        ensures { result.now ≡ self.now.first }
    {
        &self.first
    }

    pub fn rest(&self) -> &R
        ensures { result.now ≡ self.now.rest }
    {
        &self.rest
    }

    pub fn into_parts(self) -> (D, R)
        ensures first { result.0 ≡ self.first }
        ensures rest { result.1 ≡ self.rest }
    {
        (self.first, self.rest)
    }
}

impl<D: Device, R: Rig> Rig for Before<D, R> {
    ghost ports = { λ r. before_ports (D.Device.meaning r.first) (R.Rig.ports r.rest) };

    ghost asks = { BeforeAsks D.Device.meaning R.Rig.asks };

    ghost lawful = { λ r. before_lawful (D.Device.meaning r.first) (R.Rig.ports r.rest) (D.Device.lawful r.first) (R.Rig.lawful r.rest) };

    ghost some = { λ r. before_some (D.Device.meaning r.first) (R.Rig.ports r.rest) };

    ghost few = { λ r. before_few (D.Device.meaning r.first) (R.Rig.ports r.rest) };

    fn count(&self) -> u8 {
        (self.rest.count() + 1).min(PORTS)
    }

    fn edge(&self, port: u8, station: u8, letter: u8, answer: u8) -> Option<u8> {
        match part_of(port)? {
            Part::First => self.first.edge(station, letter, answer),
            Part::Rest(port) => self.rest.edge(port, station, letter, answer),
        }
    }

    fn station(&self, port: u8) -> u8 {
        match part_of(port) {
            Some(Part::First) => self.first.station(),
            Some(Part::Rest(port)) => self.rest.station(port),
            None => JAMMED,
        }
    }

    fn heard(&self, port: u8) -> u32 {
        match part_of(port) {
            Some(Part::First) => self.first.heard(),
            Some(Part::Rest(port)) => self.rest.heard(port),
            None => UNHEARD,
        }
    }

    fn has_table(&self, port: u8, table: &EdgeTable) -> bool {
        match part_of(port) {
            Some(Part::First) => self.first.has_table(table),
            Some(Part::Rest(port)) => self.rest.has_table(port, table),
            None => false,
        }
    }

    fn ask(&mut self, port: u8, letter: u8) -> u8 {
        match part_of(port) {
            Some(Part::First) => self.first.ask(letter),
            Some(Part::Rest(port)) => self.rest.ask(port, letter),
            None => REFUSED,
        }
    }
}
