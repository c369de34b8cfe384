// RFC 8554, section 5: the top hash that a leaf's one-time key and its path lead to. Leaf and parent go through a context: the compiler sees how long their inputs
// are, and would write a digest in one call out at both.
ghost use Rattle.std.specs.Prelude.{◌≡◌, ◌*◌, ◌^◌, ◌≤◌, ◌<◌, length};
ghost use Rattle.lms.specs.Tree as spec;

use crate::hash::{D_INTR, D_LEAF, start};
use crate::leaf::Leaf;
use sha256::Context;

// The hash of a leaf, from its one-time key; node is its number in the tree.
fn leaf_hash(id: &[u8; 16], node: u32, key: &[u8; 32]) -> [u8; 32]
    ensures { result ≡ spec.leaf_hash id.now node key.now }
{
    let s = start(id, node, D_LEAF);
    // The 22 bytes of the start, and the key's 32.
    let mut b = [0u8; 54];
    octets::copy(&mut b, 0, &s);
    octets::copy(&mut b, 22, key);
    let mut hash = [0u8; 32];
    Context::new().update(&b).finish(&mut hash);
    hash
}

// The hash of a node's parent, from the node's hash and its sibling's.
fn parent(id: &[u8; 16], node: u32, sibling: &[u8; 32], hash: &[u8; 32]) -> [u8; 32]
    ensures { result ≡ spec.parent id.now node sibling.now hash.now }
{
    let s = start(id, node / 2, D_INTR);
    // The 22 bytes of the start, and two hashes.
    let mut b = [0u8; 86];
    octets::copy(&mut b, 0, &s);
    if node % 2 == 1 {
        octets::copy(&mut b, 22, sibling);
        octets::copy(&mut b, 54, hash);
    } else {
        octets::copy(&mut b, 22, hash);
        octets::copy(&mut b, 54, sibling);
    }
    let mut above = [0u8; 32];
    Context::new().update(&b).finish(&mut above);
    above
}

// The candidate for the top hash, in a tree of the given height. The RFC's loop runs while the node's number is above 1, which is once for each hash of the path.
#[tactic(auto, using(crate::proofs::TreeLaws::climbing), unfolding(crate::specs::Tree::climb, crate::specs::Tree::Tc))]
pub fn candidate(leaf: &Leaf, height: usize, key: &[u8; 32], path: &[u8]) -> [u8; 32]
    requires { (height ≤ 25) × (leaf.now.q < 2 ^ height) × (length path.now ≡ 32 * height) }
    ensures { result ≡ spec.Tc height leaf.now.id leaf.now.q key.now path.now }
{
    let mut node = (1 << height) + leaf.q;
    let mut hash = leaf_hash(&leaf.id, node, key);
    let (siblings, _) = path.as_chunks::<32>();
    for sibling in siblings {
        hash = parent(&leaf.id, node, sibling, &hash);
        node /= 2;
    }
    hash
}
