// Where the messages of a bundle stand.
ghost use Rattle.std.specs.Prelude.{◌≡◌};
ghost use Rattle.bundle.specs.Steps.{start_of};

// The bytes of the trailer.
pub const TRAILER_LEN: usize = 4;

// Where the kind 1 message (01: the slip) starts, read from the trailer: the distance back from its first byte. None where that is nowhere.
pub fn start_of(bundle: &[u8]) -> Option<usize>
    ensures { result ≡ start_of bundle.now }
{
    let trailer = bundle.len().checked_sub(TRAILER_LEN)?;
    let distance = octets::u32_at(bundle, trailer) as usize;
    trailer.checked_sub(distance)
}
