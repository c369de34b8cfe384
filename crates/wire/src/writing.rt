// Manifest and messages, written to the start of a buffer that has room for them. What stands behind them stays.
ghost use Rattle.std.specs.Prelude.{◌≡◌, [], ◌+◌, ◌≤◌, length};
ghost use Rattle.wire.specs.declared.kind.Kind.TheVariants.{Program, Block, Update};
ghost use Rattle.wire.specs.Manifest.{manifest_length, written};
ghost use Rattle.wire.specs.Message.{least_length, program_message, block_message, successor_head, at_start};

use crate::kind::Kind;
use crate::manifest::Manifest;
use crate::message::{BLOCK_LEAST, KIND_LEN, PROGRAM_LEAST, UPDATE_LEAST};
use octets::copy;

// The bare manifest.
#[tactic(auto, using(crate::proofs::PutLaws::front))]
pub fn put_manifest(manifest: Manifest, out: &mut [u8])
    requires { manifest_length ≤ length out.old }
    ensures { out.new ≡ at_start (written manifest) out.old }
{
    copy(out, 0, &manifest.to_bytes());
}

// Kind 1.
pub fn put_program(manifest: Manifest, signature: &[u8], out: &mut [u8])
    requires { least_length Program + length signature.now ≤ length out.old }
    ensures { out.new ≡ at_start (program_message manifest signature.now) out.old }
{
    out[0] = Kind::Program as u8;
    copy(out, KIND_LEN, &manifest.to_bytes());
    copy(out, PROGRAM_LEAST, signature);
}

// Kind 2, all of it but the hashes; the answer is the index behind the block, where these go.
pub fn put_block(number: u16, block: &[u8], out: &mut [u8]) -> usize
    requires { least_length Block + length block.now ≤ length out.old }
    ensures { (result ≡ least_length Block + length block.now)
        × (out.new ≡ at_start (block_message number block.now []) out.old) }
{
    out[0] = Kind::Block as u8;
    copy(out, KIND_LEN, &number.to_be_bytes());
    copy(out, BLOCK_LEAST, block);
    BLOCK_LEAST + block.len()
}

// Kinds 3 and 4, up to the block; the answer is the index behind it. The first byte is a number and no Kind: the contract is for any.
pub fn put_successor(
    kind: u8,
    manifest: Manifest,
    number: u16,
    block: &[u8],
    out: &mut [u8],
) -> usize
    requires { least_length Update + length block.now ≤ length out.old }
    ensures { (result ≡ least_length Update + length block.now)
        × (out.new ≡ at_start (successor_head kind manifest number block.now) out.old) }
{
    out[0] = kind;
    copy(out, KIND_LEN, &manifest.to_bytes());
    copy(out, PROGRAM_LEAST, &number.to_be_bytes());
    copy(out, UPDATE_LEAST, block);
    UPDATE_LEAST + block.len()
}
