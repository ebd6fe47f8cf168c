// The causes of refusals, by layer. The number of each is the one by which a refusal is known.
ghost use Rattle.std.specs.Prelude.{◌≡◌};
ghost use Rattle.faults.specs.declared.causes.Cause.TheVariants.{Book, Keys, Layout, Stage};

// The bytes of a book do not declare kinds of device.
#[derive(Clone, Copy, PartialEq, Eq, Debug)]
pub enum BookCause {
    TooLong = 1,
    UnknownCommand = 2,
    MissingOperands = 3,
    OutOfRange = 4,
    DeclaredTwice = 5,
    NoRetreat = 6,
    BadRetreat = 7,
}

// The bytes of a script are not parts with bodies of commands.
#[derive(Clone, Copy, PartialEq, Eq, Debug)]
pub enum LayoutCause {
    TooLong = 8,
    NoPart = 9,
    BadHeader = 10,
    BadCommand = 11,
    OutOfRange = 12,
    TooDeep = 13,
}

// The key rules do not derive a script.
#[derive(Clone, Copy, PartialEq, Eq, Debug)]
pub enum KeyCause {
    NotAllowed = 14,
    AnswersDiffer = 15,
    UndeclaredBlock = 16,
    EndsDiffer = 17,
    RepeatDiffers = 18,
    BoundTwice = 19,
    BoundWrong = 20,
    BodyEnd = 21,
    MainHeld = 22,
}

// A call of the player, or a map of a patch, does not fit.
#[derive(Clone, Copy, PartialEq, Eq, Debug)]
pub enum StageCause {
    NotOver = 23,
    OtherCount = 24,
    OtherTable = 25,
    NotAway = 26,
    Over = 27,
    BadBudget = 28,
    ShortLog = 29,
    RigChanged = 30,
    NoSuchPort = 31,
    // known by the number of a missing port
    BadMap,
}

#[derive(Clone, Copy, PartialEq, Eq, Debug)]
pub enum Cause {
    Book(BookCause),
    Layout(LayoutCause),
    Keys(KeyCause),
    Stage(StageCause),
}

impl From<BookCause> for Cause {
    ghost from_gives = { λ cause result. result ≡ Book cause };

    fn from(cause: BookCause) -> Cause {
        Cause::Book(cause)
    }
}

impl From<LayoutCause> for Cause {
    ghost from_gives = { λ cause result. result ≡ Layout cause };

    fn from(cause: LayoutCause) -> Cause {
        Cause::Layout(cause)
    }
}

impl From<KeyCause> for Cause {
    ghost from_gives = { λ cause result. result ≡ Keys cause };

    fn from(cause: KeyCause) -> Cause {
        Cause::Keys(cause)
    }
}

impl From<StageCause> for Cause {
    ghost from_gives = { λ cause result. result ≡ Stage cause };

    fn from(cause: StageCause) -> Cause {
        Cause::Stage(cause)
    }
}
