// What every hash input of RFC 8554 begins with (section 7.1).
ghost use Rattle.std.specs.Prelude.{◌≡◌, ◌++◌};
ghost use Rattle.lms.specs.Notation.{u16str, u32str};

pub const D_PBLC: u16 = 0x8080;

pub const D_MESG: u16 = 0x8181;

pub const D_LEAF: u16 = 0x8282;

pub const D_INTR: u16 = 0x8383;

// The identifier I, the number of a leaf or a node, and a mark (or a chain's number).
pub fn start(id: &[u8; 16], number: u32, mark: u16) -> [u8; 22]
    ensures { result ≡ id.now ++ u32str number ++ u16str mark }
{
    let mut s = [0u8; 22];
    octets::copy(&mut s, 0, id);
    octets::copy(&mut s, 16, &number.to_be_bytes());
    octets::copy(&mut s, 20, &mark.to_be_bytes());
    s
}
