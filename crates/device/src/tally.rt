// What a device has heard.
ghost use Rattle.std.specs.Prelude.{◌≡◌, ◌+◌, ◌%◌, ◌^◌, ◌<◌};

// How many letters, modulo 2^32, and the last of them with its answer.
#[derive(Drop)]
pub struct Tally {
    heard: u32,
    letter: u8,
    answer: u8,
    ghost counted: { heard < 2 ^ 32 },
}

impl Tally {
    // No letter yet: these two are shown until the first one comes. The meaning of a device has a number for each at any time.
    pub fn new(letter: u8, answer: u8) -> Tally
        ensures heard { result.heard ≡ 0 }
        ensures letter { result.letter ≡ letter }
        ensures answer { result.answer ≡ answer }
    {
        Tally {
            heard: 0,
            letter,
            answer,
        }
    }

    pub fn heard(&self) -> u32
        ensures { result ≡ self.now.heard }
    {
        self.heard
    }

    // Counts the letter, and keeps it with its answer as the last.
    pub fn note(&mut self, letter: u8, answer: u8)
        ensures heard { self.new.heard ≡ (self.old.heard + 1) % 2 ^ 32 }
        ensures letter { self.new.letter ≡ letter }
        ensures answer { self.new.answer ≡ answer }
    {
        *self = Tally {
            heard: self.heard.wrapping_add(1),
            letter,
            answer,
        };
    }
}
