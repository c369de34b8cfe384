// What table 1 of RFC 8554 says of a one-time signature's chains.
ghost use Rattle.lms.specs.Sound.{Sound};

// A row of the table: the digit width w, the number p of chains, the checksum's shift ls.
#[derive(Clone, Copy, Debug, PartialEq, Eq)]
pub struct Chains {
    pub w: usize,
    pub p: usize,
    pub ls: usize,
    ghost sound: { Sound (record { w = w; p = p; ls = ls }) },
}
