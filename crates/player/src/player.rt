// A player and the script that it plays.
ghost use Rattle.player.specs.Loaded.{held};
ghost use Rattle.player.specs.Room.{Room};

use crate::loaded::Loaded;
use crate::stage::Stage;

#[derive(Drop)]
pub struct Player<'a> {
    loaded: Loaded<'a>,
    stage: Stage<'a>,
    ghost room: { Room (held loaded) stage },
}

mod calls;
