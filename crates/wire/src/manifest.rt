// The manifest and its bytes.
ghost use Rattle.std.specs.Prelude.{◌≡◌, length};
ghost use Rattle.wire.specs.Manifest as spec;
ghost use Rattle.wire.specs.Manifest.{manifest_length, written};

use crate::geometry::Geometry;

// version (2), L (2), model (4), serial (4), T (4), root (32)
pub const MANIFEST_LEN: usize = 48;

// 01: the slip.
#[derive(Clone, Copy, Debug, PartialEq, Eq)]
pub struct Manifest {
    pub version: u16,
    // 01: L, the bytes of a block.
    pub block_len: u16,
    pub model: u32,
    pub serial: u32,
    // 01: T, the bytes of the image.
    pub image_len: u32,
    pub root: [u8; 32],
}

impl Manifest {
    ghost use Rattle.std.specs.Prelude.{false};
    ghost use Rattle.wire.specs.Size.{wrong_size};

    // The manifest that bytes stand for.
    #[tactic(auto, unfolding(crate::specs::Manifest::read))]
    pub fn read(bytes: &[u8]) -> Manifest
        requires { length bytes.now ≡ manifest_length }
        ensures { result ≡ spec.read bytes.now }
    {
        Manifest {
            version: octets::u16_at(bytes, 0),
            block_len: octets::u16_at(bytes, 2),
            model: octets::u32_at(bytes, 4),
            serial: octets::u32_at(bytes, 8),
            image_len: octets::u32_at(bytes, 12),
            root: octets::array_at(bytes, 16),
        }
    }

    // The same, not inlined: where two manifests meet, the compiler keeps each byte of both roots apart, and the device's code would be 14,790 bytes, past its goal
    // (bench/size). Who looks at a few numbers alone takes `read`, which then copies no root.
    #[inline(never)]
    pub fn read_out_of_line(bytes: &[u8]) -> Manifest
        requires { length bytes.now ≡ manifest_length }
        ensures { result ≡ spec.read bytes.now }
    {
        Manifest::read(bytes)
    }

    // Its bytes. A method of the name that the library's numbers have, where `From` would be no plainer: it would not say that these are the manifest's in the order of
    // the wire.
    pub fn to_bytes(&self) -> [u8; MANIFEST_LEN]
        ensures { result ≡ written self.now }
    {
        let mut s = [0u8; MANIFEST_LEN];
        octets::copy(&mut s, 0, &self.version.to_be_bytes());
        octets::copy(&mut s, 2, &self.block_len.to_be_bytes());
        octets::copy(&mut s, 4, &self.model.to_be_bytes());
        octets::copy(&mut s, 8, &self.serial.to_be_bytes());
        octets::copy(&mut s, 12, &self.image_len.to_be_bytes());
        octets::copy(&mut s, 16, &self.root);
        s
    }

    // L and T, of a manifest whose sizes were tested before.
    pub fn known_geometry(&self) -> Geometry
        requires { wrong_size self.now.block_len self.now.image_len ≡ false }
        ensures { (result.block_len ≡ self.now.block_len) × (result.image_len ≡ self.now.image_len) }
    {
        Geometry {
            block_len: usize::from(self.block_len),
            image_len: self.image_len as usize,
        }
    }
}
