// What the ports of a rig show.
ghost use Rattle.std.specs.Prelude.{◌≡◌, slice_get};
ghost use Rattle.console.specs.Ports.{by_port, port_lines};

use arrayvec::ArrayVec;
use device::Rig;
use std::array;

#[derive(Clone, Copy, Debug, Default, PartialEq, Eq)]
pub struct PortLine {
    pub port: u8,
    pub station: u8,
    pub heard: u32,
}

// All of them, in order.
pub fn port_lines<R: Rig>(rig: &R) -> ArrayVec<PortLine, 8>
    ensures { result.items ≡ port_lines (R.ports rig.now) }
{
    let mut lines = ArrayVec::new();
    for port in 0..rig.count() {
        lines.push(PortLine {
            port,
            station: rig.station(port),
            heard: rig.heard(port),
        });
    }
    lines
}

// None behind the last.
pub fn by_port(lines: &ArrayVec<PortLine, 8>) -> [Option<PortLine>; 8]
    ensures { result ≡ by_port lines.now.items }
{
    array::from_fn(|port| line_at(lines, port))
}

fn line_at(lines: &[PortLine], port: usize) -> Option<PortLine>
    ensures { result ≡ slice_get lines.now port }
{
    lines.get(port).copied()
}
