// What a call comes to: a refusal by its question, or a result. The definitions stand in specs/.
#![tactic(auto)]

ghost use Rattle.std.specs.Prelude.{◌≡◌};
ghost use Rattle.gate.specs.Answers.{number_of};

// The question that got a "no". `number_of` gives each its words in the papers and its number there.
#[derive(Clone, Copy, Debug, PartialEq, Eq)]
pub enum Refusal {
    Mode = 1,
    TooLong = 2,
    Unreadable = 3,
    PieceCount = 4,
    NotASummary = 5,
    MixedModes = 6,
    LevelGap = 7,
    LevelZero = 8,
    TooManyOpened = 9,
    NoRecord = 10,
    NotWhole = 11,
    BufferTooShort = 12,
    NotNested = 13,
    OpenedCount = 14,
    NotARun = 15,
    NoWayBack = 16,
    OuterFigure = 17,
    NoSuchPage = 18,
    NoSuchRecord = 19,
    NoSuchFarm = 20,
    CommonStock = 21,
}

impl Refusal {
    pub fn number(self) -> u8
        ensures { result ≡ number_of self }
    {
        self as u8
    }
}
