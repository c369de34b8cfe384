// Reading numbers in base ten. By hand: the library's `parse` takes a sign, too.
ghost use Rattle.std.specs.Prelude.{◌≡◌};
ghost use Rattle.decimal.specs.Decimal.{parsed};

// The number that a text of digits stands for, if it has 32 bits.
#[tactic(auto, using(crate::proofs::ReadingLaws::reading))]
pub fn parse(text: &[u8]) -> Option<u32>
    ensures { result ≡ parsed text.now }
{
    if text.is_empty() {
        return None;
    }
    let mut value: u32 = 0;
    for &digit in text {
        if !digit.is_ascii_digit() {
            return None;
        }
        value = value.checked_mul(10)?.checked_add((digit - b'0') as u32)?;
    }
    Some(value)
}
