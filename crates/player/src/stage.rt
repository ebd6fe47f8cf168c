// What a player keeps besides its script.
ghost use Rattle.std.specs.Prelude.{◌≡◌, ◌≤◌, ◌-◌, ◌++◌, replicate};
ghost use Rattle.rules.specs.Lists.{from};

use crate::loaded::Loaded;
use crate::open_blocks::{Frame, OpenBlocks};
use arrayvec::ArrayVec;
use protocol::AWAY;
use std::array;

// Eight, 0 to 7.
pub(crate) const REGISTERS: usize = 8;

// Plain, so that each part of it may change by itself.
#[derive(Drop)]
pub struct Stage<'a> {
    pub over: bool,
    pub registers: [u8; REGISTERS],
    // by port
    pub stations: ArrayVec<u8, 8>,
    pub open: OpenBlocks<Frame<'a>>,
}

// So many ports that are away.
fn all_away(ports: u8) -> ArrayVec<u8, 8>
    requires { ports ≤ 8 }
    ensures { result.items ≡ replicate ports 0 }
{
    let mut stations = ArrayVec::new();
    for _ in 0..ports {
        stations.push(AWAY);
    }
    stations
}

// The ports of main's handles: that of each handle has its number.
fn own_ports(ports: u8) -> [u8; 8]
    requires { ports ≤ 8 }
    ensures { result ≡ from 0 ports ++ replicate (8 - ports) 255 }
{
    array::from_fn(|i| if i < ports as usize { i as u8 } else { 255 })
}

impl<'a> Stage<'a> {
    ghost use Rattle.std.specs.Prelude.{◌<◌, slice_index};
    ghost use Rattle.rules.specs.Script as rules;
    ghost use Rattle.rules.specs.Script.{empty_script};
    ghost use Rattle.machine.specs.Player.{begun, finished, main, new_player, with_register, with_station};
    ghost use Rattle.player.specs.Loaded.{held};
    ghost use Rattle.player.specs.Room.{Room};
    ghost use Rattle.player.specs.Seen.{seen};

    // Over, without a port.
    pub(crate) fn new() -> Stage<'a>
        ensures { seen empty_script result ≡ new_player }
    {
        Stage {
            over: true,
            registers: [0; REGISTERS],
            stations: ArrayVec::new(),
            open: OpenBlocks::new(),
        }
    }

    // At the start of main, whose handles are so many ports.
    pub(crate) fn begun(loaded: &Loaded<'a>, ports: u8) -> Stage<'a>
        requires some { 0 < ports }
        requires few { ports ≤ 8 }
        requires own { ports ≡ (main (held loaded.now)).handles }
        ensures begun { seen (held loaded.now) result ≡ begun (held loaded.now) }
        ensures room { Room (held loaded.now) result }
    {
        let mut open = OpenBlocks::new();
        open.push(Frame {
            block: loaded.main(),
            ports: own_ports(ports),
        });
        Stage {
            over: false,
            registers: [0; REGISTERS],
            stations: all_away(ports),
            open,
        }
    }

    // The station that is kept for a port; 0 where there is no such port.
    pub(crate) fn station(&self, port: u8) -> u8
        ensures { result ≡ slice_index self.now.stations.items port }
    {
        self.stations
            .as_slice()
            .get(port as usize)
            .copied()
            .unwrap_or_default()
    }

    pub(crate) fn set_station(&mut self, port: u8, station: u8)
        ensures { (s : rules.Script) → seen s self.new ≡ with_station (seen s self.old) port station }
    {
        if let Some(kept) = self.stations.get_mut(port as usize) {
            *kept = station;
        }
    }

    pub(crate) fn register(&self, register: u8) -> u8
        ensures { result ≡ slice_index self.now.registers register }
    {
        self.registers
            .get(register as usize)
            .copied()
            .unwrap_or_default()
    }

    pub(crate) fn set_register(&mut self, register: u8, value: u8)
        ensures { (s : rules.Script) → seen s self.new ≡ with_register (seen s self.old) register value }
    {
        let i = register as usize;
        if i < REGISTERS {
            self.registers[i] = value;
        }
    }

    // Nothing is open any more.
    pub(crate) fn finish(&mut self)
        ensures { (s : rules.Script) → seen s self.new ≡ finished (seen s self.old) }
    {
        self.over = true;
        self.open.clear();
    }
}
