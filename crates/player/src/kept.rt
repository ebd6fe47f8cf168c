// Whether a rig is as a player keeps it, or as a script needs it.
ghost use Rattle.std.specs.Prelude.{◌≡◌, ◌<◌, ◌&&◌, ◌==◌, length, nat_eq};
ghost use Rattle.faults.specs.declared.causes.StageCause.TheVariants.{NotAway, OtherTable};
ghost use Rattle.protocol.specs.Tables.{same_table};
ghost use Rattle.device.specs.Ports.{edge_at, station_at};
ghost use Rattle.machine.specs.Calls.{each_port, rig_kept, table_fits};
ghost use Rattle.machine.specs.Player.{begun, kept, port_table};
ghost use Rattle.player.specs.Loaded.{held};
ghost use Rattle.player.specs.Kept.{may_begin};
ghost use Rattle.player.specs.Seen.{seen};

use crate::loaded::Loaded;
use crate::stage::Stage;
use device::Rig;
use faults::{Fault, Layer, NOWHERE, StageCause};
use protocol::AWAY;

impl<'a> Loaded<'a> {
    // Refuses the lowest port at which a table differs.
    fn tables_fit<R: Rig>(&self, rig: &R) -> Result<(), Fault>
        ensures { result ≡ each_port OtherTable (table_fits (begun (held self.now))) 0 (R.Rig.ports rig.now) }
    {
        for port in 0..rig.count() {
            if !self.table_fits(rig, port) {
                return Err(StageCause::OtherTable.at(port as u16));
            }
        }
        Ok(())
    }

    // The device of each port has the table of the port's kind and is away, or the lowest one at which a table differs,
    // and else the lowest one that is not away, is refused.
    pub(crate) fn fits<R: Rig>(&self, rig: &R) -> Result<(), Fault>
        ensures { result ≡ may_begin (held self.now) (R.Rig.ports rig.now) }
    {
        self.tables_fit(rig)?;
        all_away(rig)
    }
}

// Refuses the lowest port that is not away.
fn all_away<R: Rig>(rig: &R) -> Result<(), Fault>
    ensures { result ≡ each_port NotAway (λ i m. nat_eq m.station 0) 0 (R.Rig.ports rig.now) }
{
    for port in 0..rig.count() {
        if rig.station(port) != AWAY {
            return Err(StageCause::NotAway.at(port as u16));
        }
    }
    Ok(())
}

impl<'a> Stage<'a> {
    // The table is that of the port's kind, and the station the one that is kept.
    fn port_kept<R: Rig>(&self, loaded: &Loaded<'a>, rig: &R, port: u8) -> bool
        requires { port < length (R.Rig.ports rig.now) }
        ensures { result ≡ (same_table (edge_at (R.Rig.ports rig.now) port) (port_table (held loaded.now) port) && station_at (R.Rig.ports rig.now) port == kept (seen (held loaded.now) self.now) port) }
    {
        loaded.table_fits(rig, port) && rig.station(port) == self.station(port)
    }

    // The rig is as it was left: the count of ports, their tables and their stations.
    pub(crate) fn rig_kept<R: Rig>(&self, loaded: &Loaded<'a>, rig: &R) -> Result<(), Fault>
        ensures { result ≡ rig_kept (seen (held loaded.now) self.now) (R.Rig.ports rig.now) }
    {
        let ports = rig.count();
        if self.stations.len() != ports as usize {
            return Err(StageCause::RigChanged.at(NOWHERE));
        }
        for port in 0..ports {
            if !self.port_kept(loaded, rig, port) {
                return Err(StageCause::RigChanged.at(port as u16));
            }
        }
        Ok(())
    }
}
