// Devices of one type in a row.
ghost use Rattle.std.specs.Prelude.{◌≡◌, ◌<◌, map, take, vec_len, IfErr, IfOk};
ghost use Rattle.std.specs.List.{slice_get};
ghost use Rattle.std.specs.Option.{option_copied};
ghost use Rattle.device.specs.Asked.{RowAsks};
ghost use Rattle.device.specs.Built.{each_map, row_few, row_lawful, row_ports, row_some, some_map};

use crate::answers::REFUSED;
use crate::device::Device;
use crate::rig::Rig;
use crate::rigs::{PORTS, UNHEARD};
use protocol::{EdgeTable, JAMMED};

// A device at least; the first eight are ports.
#[derive(Drop)]
pub struct Row<D> {
    devices: Vec<D>,
    ghost some: { 0 < vec_len devices },
}

impl<D> Row<D> {
    // Gives the devices back where there are none.
    pub fn new(devices: Vec<D>) -> Result<Row<D>, Vec<D>>
        ensures row { IfOk result (λ row. row.devices ≡ devices) }
        ensures back { IfErr result (λ back. back ≡ devices) }
        ensures none { IfErr result (λ back. vec_len back ≡ 0) }
    {
        if devices.is_empty() {
            return Err(devices);
        }
        Ok(Row { devices })
    }

    pub fn devices(&self) -> &[D]
        ensures { result.now ≡ self.now.devices.items }
    {
        self.devices.as_slice()
    }

    pub fn into_devices(self) -> Vec<D>
        ensures { result ≡ self.devices }
    {
        self.devices
    }

    // The device at a port; none where it is missing. (As of `Single`, and for the same reason.)
    fn at(&self, port: u8) -> Option<&D>
        ensures { option_copied result ≡ slice_get (take 8 self.now.devices.items) port }
    {
        if port < PORTS {
            self.devices.get(port as usize)
        } else {
            None
        }
    }
}

impl<D: Device> Rig for Row<D> {
    ghost ports = { λ r. row_ports (map D.Device.meaning r.devices.items) };

    ghost asks = { λ r p l a r'. RowAsks D.Device.meaning r.devices.items p l a r'.devices.items };

    ghost lawful = { λ r. row_lawful (map D.Device.meaning r.devices.items) (each_map D.Device.meaning D.Device.lawful r.devices.items) };

    ghost some = { λ r. row_some (map D.Device.meaning r.devices.items) (some_map D.Device.meaning r.devices r.some) };

    ghost few = { λ r. row_few (map D.Device.meaning r.devices.items) };

    fn count(&self) -> u8 {
        self.devices.len().min(PORTS as usize) as u8
    }

    fn edge(&self, port: u8, station: u8, letter: u8, answer: u8) -> Option<u8> {
        self.at(port)?.edge(station, letter, answer)
    }

    fn station(&self, port: u8) -> u8 {
        self.at(port).map_or(JAMMED, |device| device.station())
    }

    fn heard(&self, port: u8) -> u32 {
        self.at(port).map_or(UNHEARD, |device| device.heard())
    }

    fn has_table(&self, port: u8, table: &EdgeTable) -> bool {
        self.at(port).is_some_and(|device| device.has_table(table))
    }

    fn ask(&mut self, port: u8, letter: u8) -> u8 {
        if port >= PORTS {
            return REFUSED;
        }
        match self.devices.get_mut(port as usize) {
            Some(device) => device.ask(letter),
            None => REFUSED,
        }
    }
}
