// RFC 8554, section 5.4.2: the verdict.
ghost use Rattle.std.specs.Prelude.{◌≡◌, ◌≤◌};
ghost use Rattle.lms.specs.Lms.{valid, valid_at};
ghost use Rattle.lms.specs.Types.{row};

use crate::chains::Chains;
use crate::leaf::Leaf;
use crate::parameters::{ots_type, tree_type};
use crate::{ots, tree};
use octets::{array_at, u32_at};

// The bytes of a public key.
pub const KEY_LEN: usize = 56;

// The verdict for a key of the types that t and height stand for, one test after the other in the RFC's order. A signature is q (4 bytes), a one-time signature, the tree type (4), the path.
#[tactic(auto, unfolding(crate::specs::Lms::valid_at))]
fn verify_at(
    t: Chains,
    height: usize,
    key: &[u8; KEY_LEN],
    message: &[u8],
    signature: &[u8],
) -> bool
    requires { height ≤ 25 }
    ensures { result ≡ valid_at (row t) height key.now message.now signature.now }
{
    let tree_at = 4 + (4 + 32 * (t.p + 1));
    let path_at = tree_at + 4;
    if signature.len() != path_at + 32 * height {
        return false;
    }
    if u32_at(signature, 4) != u32_at(key, 4) {
        return false;
    }
    if u32_at(signature, tree_at) != u32_at(key, 0) {
        return false;
    }
    let q = u32_at(signature, 0);
    if q >= 1 << height {
        return false;
    }
    let leaf = Leaf {
        id: array_at(key, 8),
        q,
    };
    let one_time_key = ots::candidate(&leaf, t, message, &signature[4..tree_at]);
    let top = tree::candidate(&leaf, height, &one_time_key, &signature[path_at..]);
    octets::equal(&top, &key[24..])
}

// Whether the signature over the message is valid under the key. Everything else is unsigned: other lengths and types, a leaf number beyond the tree.
#[tactic(auto, using(crate::proofs::TableLaws::heights), unfolding(crate::specs::Lms::valid))]
pub fn verify(key: &[u8], message: &[u8], signature: &[u8]) -> bool
    ensures { result ≡ valid key.now message.now signature.now }
{
    let Some(key) = key.as_array::<KEY_LEN>() else {
        return false;
    };
    let Some(t) = ots_type(u32_at(key, 4)) else {
        return false;
    };
    let Some(height) = tree_type(u32_at(key, 0)) else {
        return false;
    };
    verify_at(t, height, key, message, signature)
}
