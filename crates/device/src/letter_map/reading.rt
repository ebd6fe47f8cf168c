// A map is read from its bytes, and then looked up.
ghost use Rattle.std.specs.Prelude.{◌≡◌, ℕ, ◌<◌, map, IfOk, IfSome};
ghost use Rattle.std.specs.List.{list_all};
ghost use Rattle.device.specs.Letters.{below_in, letter_of, letter_or_none};
ghost use Rattle.device.specs.LetterMap.{down, map_from};

use super::LetterMap;
use faults::{Fault, Layer, NOWHERE, StageCause};
use protocol::LETTERS;

// In the bytes of a map, the mark of a letter that has none below.
const NO_LETTER: u8 = 255;

fn letter_or_none(byte: u8) -> bool
    ensures { result ≡ letter_or_none byte }
{
    byte < LETTERS || byte == NO_LETTER
}

fn letter(byte: u8) -> Option<u8>
    ensures { result ≡ letter_of byte }
{
    (byte < LETTERS).then_some(byte)
}

fn fits(bytes: &[u8]) -> bool
    ensures { result ≡ list_all letter_or_none bytes.now }
{
    bytes.iter().all(|byte| letter_or_none(*byte))
}

fn letters(bytes: [u8; 16]) -> [Option<u8>; 16]
    ensures { result ≡ map letter_of bytes }
{
    bytes.map(letter)
}

impl LetterMap {
    // Sixteen bytes, each a letter or the mark for none.
    pub fn new(bytes: &[u8]) -> Result<LetterMap, Fault>
        ensures map { result ≡ map_from bytes.now }
        ensures below { IfOk result (λ read. (l : ℕ) → down read l ≡ below_in bytes.now l) }
    {
        match <[u8; 16]>::try_from(bytes) {
            Ok(bytes) if fits(&bytes) => Ok(LetterMap {
                letters: letters(bytes),
            }),
            _ => Err(StageCause::BadMap.at(NOWHERE)),
        }
    }

    // The letter below.
    pub fn down(&self, letter: u8) -> Option<u8>
        ensures below { result ≡ down self.now letter }
        ensures known { IfSome result (λ below. below < 16) }
    {
        *self.letters.get(letter as usize)?
    }
}
