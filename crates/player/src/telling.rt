// A letter to a port.
ghost use Rattle.std.specs.Prelude.{◌≡◌};
ghost use Rattle.device.specs.Ports.{RigHears};
ghost use Rattle.machine.specs.Dialogue.{entry_in};
ghost use Rattle.machine.specs.Player.{led, with_station};
ghost use Rattle.player.specs.Loaded.{held};
ghost use Rattle.player.specs.Seen.{seen};

use crate::loaded::Loaded;
use crate::stage::Stage;
use device::Rig;
use protocol::{Entry, JAMMED};

impl<'a> Stage<'a> {
    // The log shows the station that the device shows; what is kept is where the port's table leads.
    #[inline(always)]
    pub(crate) fn tell<R: Rig>(
        &mut self,
        loaded: &Loaded<'a>,
        rig: &mut R,
        port: u8,
        letter: u8,
    ) -> Entry
        ensures heard { RigHears (R.Rig.ports rig.old) port letter result.answer (R.Rig.ports rig.new) }
        ensures entry { result ≡ entry_in (R.Rig.ports rig.new) port letter result.answer }
        ensures kept { seen (held loaded.now) self.new ≡ with_station (seen (held loaded.now) self.old) port (led (seen (held loaded.now) self.old) port letter result.answer) }
    {
        let answer = rig.ask(port, letter);
        let to = loaded
            .edge(port, self.station(port), letter, answer)
            .unwrap_or(JAMMED);
        self.set_station(port, to);
        Entry {
            port,
            letter,
            answer,
            station: rig.station(port),
        }
    }
}
