// The refusals of 01, with those of 02's changes, by their words and with the papers' numbers.
ghost use Rattle.std.specs.Prelude.{◌≡◌};
ghost use Rattle.wire.specs.Refusal.{refusal_number};

#[derive(Clone, Copy, Debug, PartialEq, Eq)]
pub enum Refusal {
    State = 1,
    Kind = 2,
    Short = 3,
    Version = 4,
    Size = 5,
    Model = 6,
    Serial = 7,
    Area = 8,
    Unsigned = 9,
    Stage = 10,
    Turn = 11,
    Length = 12,
    Unlike = 13,
    Mismatch = 14,
    Path = 15,
    Text = 16,
    Place = 17,
    Twice = 18,
    Altered = 19,
    Spent = 20,
}

// The papers' number.
impl From<Refusal> for u8 {
    ghost from_gives = { λ refusal number. number ≡ refusal_number refusal };

    fn from(refusal: Refusal) -> u8 {
        refusal as u8
    }
}
