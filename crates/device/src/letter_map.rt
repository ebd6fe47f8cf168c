// A map that renames letters.
ghost use Rattle.device.specs.Letters.{AreLetters};

// By letter, the letter below.
#[derive(Clone, Copy)]
pub struct LetterMap {
    letters: [Option<u8>; 16],
    ghost known: { AreLetters letters },
}

mod reading;
