// Where the parts of a message stand, and the bytes that each kind has at least. How long one must be with its block, `Geometry` says.
#![tactic(auto, using(crate::proofs::MessageLaws::parts), unfolding(crate::specs::Message::short, crate::specs::Message::manifest_bytes, crate::specs::Message::manifest_in, crate::specs::Message::number_in, crate::specs::Message::block_in, crate::specs::Message::hashes_after, crate::specs::Message::update_number, crate::specs::Message::update_block, crate::specs::Message::update_signature, crate::specs::Message::path_in, crate::specs::Message::path_signature))]

ghost use Rattle.std.specs.Prelude.{◌≡◌, ◌+◌, ◌*◌, ◌≤◌, length};
ghost use Rattle.merkle.specs.Limits.{hash_length};
ghost use Rattle.wire.specs.declared.kind.Kind.TheVariants.{Program, Block, Update};
ghost use Rattle.wire.specs.Message.{least_length, manifest_bytes, manifest_in, program_signature, number_in, block_in, hashes_after, update_number, update_block, update_signature, path_in, path_signature};
ghost use Rattle.wire.specs.Message as spec;

use crate::kind::Kind;
use crate::manifest::{MANIFEST_LEN, Manifest};

pub const KIND_LEN: usize = 1;

pub const NUMBER_LEN: usize = 2;

// The parts before the signature of kind 1, and before the block of kinds 2, 3 and 4.
pub const PROGRAM_LEAST: usize = KIND_LEN + MANIFEST_LEN;

pub const BLOCK_LEAST: usize = KIND_LEN + NUMBER_LEN;

pub const UPDATE_LEAST: usize = PROGRAM_LEAST + NUMBER_LEN;

// The least bytes of a message of this kind.
pub fn least_len(kind: Kind) -> usize
    ensures { result ≡ least_length kind }
{
    match kind {
        Kind::Program => PROGRAM_LEAST,
        Kind::Block => BLOCK_LEAST,
        Kind::Update | Kind::PathUpdate => UPDATE_LEAST,
        Kind::Unknown => 0,
    }
}

// Refusal 3.
pub fn short(kind: Kind, message: &[u8]) -> bool
    ensures { result ≡ spec.short kind message.now }
{
    message.len() < least_len(kind)
}

// A function for each part, as the formats' page has them. One for all that differ in their place alone is no plainer: each call would name the place. Nor is a
// type of long enough messages: how long that is differs with the part, and is known bit by bit, when manifest and number have been read.

// Kinds 1, 3 and 4: the manifest's bytes.
pub fn manifest_bytes(message: &[u8]) -> &[u8]
    requires { least_length Program ≤ length message.now }
    ensures { result.now ≡ manifest_bytes message.now }
{
    &message[KIND_LEN..PROGRAM_LEAST]
}

// Kinds 1, 3 and 4: the manifest.
pub fn manifest_in(message: &[u8]) -> Manifest
    requires { least_length Program ≤ length message.now }
    ensures { result ≡ manifest_in message.now }
{
    Manifest::read_out_of_line(manifest_bytes(message))
}

// Kind 1: the signature.
pub fn program_signature(message: &[u8]) -> &[u8]
    requires { least_length Program ≤ length message.now }
    ensures { result.now ≡ program_signature message.now }
{
    &message[PROGRAM_LEAST..]
}

// Kind 2: the number.
pub fn number_in(message: &[u8]) -> u16
    requires { least_length Block ≤ length message.now }
    ensures { result ≡ number_in message.now }
{
    octets::u16_at(message, KIND_LEN)
}

// Kind 2: the block, of `len` bytes.
pub fn block_in(message: &[u8], len: usize) -> &[u8]
    requires { least_length Block + len ≤ length message.now }
    ensures { result.now ≡ block_in len message.now }
{
    &message[BLOCK_LEAST..BLOCK_LEAST + len]
}

// Kind 2: the hashes behind a block of `len` bytes.
pub fn hashes_after(message: &[u8], len: usize) -> &[u8]
    requires { least_length Block + len ≤ length message.now }
    ensures { result.now ≡ hashes_after len message.now }
{
    &message[BLOCK_LEAST + len..]
}

// Kinds 3 and 4: the number.
pub fn update_number(message: &[u8]) -> u16
    requires { least_length Update ≤ length message.now }
    ensures { result ≡ update_number message.now }
{
    octets::u16_at(message, PROGRAM_LEAST)
}

// Kinds 3 and 4: the block, of `len` bytes.
pub fn update_block(message: &[u8], len: usize) -> &[u8]
    requires { least_length Update + len ≤ length message.now }
    ensures { result.now ≡ update_block len message.now }
{
    &message[UPDATE_LEAST..UPDATE_LEAST + len]
}

// Kind 3: the signature behind a block of `len` bytes.
pub fn update_signature(message: &[u8], len: usize) -> &[u8]
    requires { least_length Update + len ≤ length message.now }
    ensures { result.now ≡ update_signature len message.now }
{
    &message[UPDATE_LEAST + len..]
}

// Kind 4: the siblings behind a block of `len` bytes, for a leaf of this depth.
pub fn path_in(message: &[u8], len: usize, depth: usize) -> &[u8]
    requires { least_length Update + len + hash_length * depth ≤ length message.now }
    ensures { result.now ≡ path_in len depth message.now }
{
    let from = UPDATE_LEAST + len;
    &message[from..from + merkle::HASH_LEN * depth]
}

// Kind 4: the signature behind a block of `len` bytes and the siblings for a leaf of this depth.
pub fn path_signature(message: &[u8], len: usize, depth: usize) -> &[u8]
    requires { least_length Update + len + hash_length * depth ≤ length message.now }
    ensures { result.now ≡ path_signature len depth message.now }
{
    &message[UPDATE_LEAST + len + merkle::HASH_LEN * depth..]
}
