// What a line says of a layer.

#[derive(Clone, Copy, Debug, PartialEq, Eq)]
pub enum Layer {
    Trail,
    // for each letter the one below, or a mark for none
    Patch([u8; 16]),
}
