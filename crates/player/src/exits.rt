// Fault exits: every port is led away by its retreat letters.
ghost use Rattle.std.specs.Prelude.{◌≡◌, ◌≤◌, length};
ghost use Rattle.machine.specs.Exits.{fault_exit, withdraw};
ghost use Rattle.player.specs.Loaded.{held};
ghost use Rattle.player.specs.Room.{Room};
ghost use Rattle.player.specs.Seen.{seen};
ghost use Rattle.player.specs.Told.{Told};

use crate::loaded::Loaded;
use crate::stage::Stage;
use device::Rig;
use protocol::{AWAY, Entry};

// A fault exit sends a port at most so many letters.
const MOST_HOME: usize = 15;

impl<'a> Stage<'a> {
    // While the port is not away, the retreat letter of the station that it has then.
    fn withdraw<R: Rig>(
        &mut self,
        loaded: &Loaded<'a>,
        rig: &mut R,
        log: &mut [Entry],
        port: u8,
    ) -> usize
        requires { 15 ≤ length log.old }
        ensures told { Told (withdraw 15 port (seen (held loaded.now) self.old)) (R.Rig.ports rig.old) log.old result (seen (held loaded.now) self.new) (R.Rig.ports rig.new) log.new }
        ensures few { result ≤ 15 }
    {
        for sent in 0..MOST_HOME {
            let station = self.station(port);
            if station == AWAY {
                return sent;
            }
            let letter = loaded.retreat_letter(port, station);
            log[sent] = self.tell(loaded, rig, port, letter);
        }
        MOST_HOME
    }

    // The ports in rising order, and then the player is over.
    pub(crate) fn fault_exit<R: Rig>(
        &mut self,
        loaded: &Loaded<'a>,
        rig: &mut R,
        log: &mut [Entry],
    ) -> usize
        requires { 120 ≤ length log.old }
        ensures told { Told (fault_exit (seen (held loaded.now) self.old)) (R.Rig.ports rig.old) log.old result (seen (held loaded.now) self.new) (R.Rig.ports rig.new) log.new }
        ensures few { result ≤ 120 }
        ensures room { Room (held loaded.now) self.new }
    {
        let mut sent = 0;
        for port in 0..self.stations.len() as u8 {
            sent += self.withdraw(loaded, rig, &mut log[sent..], port);
        }
        self.finish();
        sent
    }
}
