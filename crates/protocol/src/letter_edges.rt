// The edges of one letter.
ghost use Rattle.std.specs.Prelude.{◌≡◌, count_by, is_some};

// By station and answer, the station to which the edge leads. Flat, since the checker takes no array of arrays here.
#[derive(Clone, Copy)]
pub(crate) struct LetterEdges {
    to: [Option<u8>; 64],
    // how many they are
    count: u8,
    ghost counted: { count ≡ count_by is_some to },
}

mod slots;
