// The calls of a player.
ghost use Rattle.std.specs.Prelude.{◌≡◌, ℕ, OnErr};
ghost use Rattle.script.specs.Held.{script_held};
ghost use Rattle.machine.specs.Calls.{Begins, Goes, Looks, Strikes};
ghost use Rattle.machine.specs.Player.{new_player};
ghost use Rattle.machine.specs.Promise.{RunsKeepProtocols};
ghost use Rattle.player.specs.View.{view};

use super::Player;
use crate::loaded::Loaded;
use crate::stage::Stage;
use device::Rig;
use faults::{Fault, Layer, NOWHERE, StageCause};
use machine::Report;
use protocol::Entry;
use script::Script;

// A go does at most so many steps.
const MOST_STEPS: u32 = 1000;

// A fault exit sends at most so many letters: fifteen to each of eight ports.
const MOST_LETTERS: usize = 120;

impl<'a> Player<'a> {
    // Over, without a port. Whatever calls follow, and whatever the devices answer, the protocols of the ports are kept.
    pub fn new() -> Player<'a>
        ensures new { view result ≡ new_player }
        ensures promise { RunsKeepProtocols }
    {
        Player {
            loaded: Loaded::new(),
            stage: Stage::new(),
        }
    }

    // At the start of the script's main, or refused.
    pub fn begin<R: Rig>(&mut self, script: &Script<'a>, rig: &R) -> Result<u8, Fault>
        ensures { Begins (view self.old) (script_held script.now) (R.Rig.ports rig.now) result (view self.new) }
    {
        if !self.stage.over {
            return Err(StageCause::NotOver.at(NOWHERE));
        }
        let ports = rig.count();
        if script.ports() != ports {
            return Err(StageCause::OtherCount.at(NOWHERE));
        }
        let loaded = Loaded::of(script);
        loaded.fits(rig)?;
        let stage = Stage::begun(&loaded, ports);
        *self = Player { loaded, stage };
        Ok(ports)
    }

    // At most n steps; the log has its letters from the first entry on.
    pub fn go<R: Rig>(&mut self, n: u32, rig: &mut R, log: &mut [Entry]) -> Result<Report, Fault>
        ensures goes { (own : ℕ) × Goes (view self.old) n (R.Rig.ports rig.old) log.old result own (view self.new) (R.Rig.ports rig.new) log.new }
        ensures refused { OnErr result (rig.new ≡ rig.old) }
    {
        if self.stage.over {
            return Err(StageCause::Over.at(NOWHERE));
        }
        if n == 0 || n > MOST_STEPS {
            return Err(StageCause::BadBudget.at(NOWHERE));
        }
        if log.len() < n as usize + MOST_LETTERS {
            return Err(StageCause::ShortLog.at(NOWHERE));
        }
        self.stage.rig_kept(&self.loaded, rig)?;
        Ok(self.stage.go_on(&self.loaded, n, rig, log))
    }

    // The station that is kept for a port, and whether the player is over.
    pub fn look(&self, port: u8) -> Result<(u8, bool), Fault>
        ensures { Looks (view self.now) port result (view self.now) }
    {
        if port as usize >= self.stage.stations.len() {
            return Err(StageCause::NoSuchPort.at(port as u16));
        }
        Ok((self.stage.station(port), self.stage.over))
    }

    // A fault exit on call; answers the count of letters.
    pub fn strike<R: Rig>(&mut self, rig: &mut R, log: &mut [Entry]) -> Result<u32, Fault>
        ensures strikes { Strikes (view self.old) (R.Rig.ports rig.old) log.old result (view self.new) (R.Rig.ports rig.new) log.new }
        ensures refused { OnErr result (rig.new ≡ rig.old) }
    {
        if self.stage.over {
            return Err(StageCause::Over.at(NOWHERE));
        }
        if log.len() < MOST_LETTERS {
            return Err(StageCause::ShortLog.at(NOWHERE));
        }
        self.stage.rig_kept(&self.loaded, rig)?;
        Ok(self.stage.fault_exit(&self.loaded, rig, log) as u32)
    }
}
