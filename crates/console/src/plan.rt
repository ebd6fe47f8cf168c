// What a line says of a device.
ghost use Rattle.std.specs.Prelude.{◌≤◌, vec_len};

use crate::layer::Layer;

// Its layers, the outermost first, and the replies of the projector below them.
#[derive(Drop)]
pub struct Plan {
    layers: Vec<Layer>,
    replies: Vec<u8>,
    ghost few: { vec_len layers ≤ 8 },
}

mod building;

pub(crate) use building::build_all;
