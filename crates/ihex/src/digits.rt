// Digits, and the bytes that pairs of them stand for.
ghost use Rattle.std.specs.Prelude.{◌≡◌, Some, IsSome, ◌+◌, ◌*◌, ◌≤◌, length};
ghost use Rattle.octets.specs.Octets.{part};
ghost use Rattle.ihex.specs.Line as spec;
ghost use Rattle.ihex.specs.Code.{octet_at, sum_of};

// The digit's value. By hand: the library's `to_digit` is no plainer, since the digits stand here as the definition has them.
#[tactic(auto, using(std::proofs::lemmas::Bool::Decides::nat_tests), unfolding(crate::specs::Line::digit, crate::specs::Line::between))]
fn digit(c: u8) -> Option<u8>
    ensures { result ≡ spec.digit c }
{
    match c {
        b'0'..=b'9' => Some(c - b'0'),
        b'A'..=b'F' => Some(c - b'A' + 10),
        b'a'..=b'f' => Some(c - b'a' + 10),
        _ => None,
    }
}

// Byte i of the record in a line, if its two characters are digits.
pub fn octet(line: &[u8], i: usize) -> Option<u8>
    requires { 3 + 2 * i ≤ length line.now }
    ensures { result ≡ octet_at line.now i }
{
    let high = digit(line[1 + 2 * i])?;
    let low = digit(line[2 + 2 * i])?;
    Some(16 * high + low)
}

// The value of what is known to be a digit: a letter's low four bits stand for one to six.
#[tactic(auto, using(std::proofs::lemmas::Bool::Decides::nat_tests), unfolding(crate::specs::Line::digit, crate::specs::Line::between))]
fn value(c: u8) -> u8
    requires { IsSome (spec.digit c) }
    ensures { spec.digit c ≡ Some result }
{
    c % 16 + 9 * (c / 64)
}

// Byte i of a record that is known to be written in digits. By `octet`, which tests them again, reading a text takes a third more time.
pub fn known_octet(line: &[u8], i: usize) -> u8
    requires { (3 + 2 * i ≤ length line.now) × IsSome (octet_at line.now i) }
    ensures { octet_at line.now i ≡ Some result }
{
    16 * value(line[1 + 2 * i]) + value(line[2 + 2 * i])
}

// The sum of the first n bytes of the record in a line, modulo 256, if all their characters are digits.
pub fn sum(line: &[u8], n: usize) -> Option<u8>
    requires { 1 + 2 * n ≤ length line.now }
    ensures { result ≡ sum_of 0 (spec.octets (part 1 (2 * n) line.now)) }
{
    let mut sum: u8 = 0;
    for i in 0..n {
        sum = sum.wrapping_add(octet(line, i)?);
    }
    Some(sum)
}
