// A bundle as the showroom makes it (01, 'Bundle and loader'): the block messages, the kind 1 message and the trailer, with no filler.
ghost use Rattle.std.specs.Prelude.{◌≡◌, ◌≤◌, length};
ghost use Rattle.sha256.specs.Sha256.{digest};
ghost use Rattle.wire.specs.Message.{at_start};
ghost use Rattle.sender.specs.Job.{count};
ghost use Rattle.sender.specs.Given.{image_of, job_of, LengthsOf};
ghost use Rattle.sender.specs.Send.{length_of, Does, as_is};
ghost use Rattle.bundle.specs.Bundle.{block_messages, send_bundle};
ghost use Rattle.bundle.specs.Steps.{unsigned_length};

use crate::parts::TRAILER_LEN;
use octets::copy;
use sender::{Image, Job};
use wire::{Geometry, Kind, Refusal, too_short};

// How many bytes an answer says were written.
pub fn sent_len(sent: Result<usize, Refusal>) -> usize
    ensures { result ≡ length_of sent }
{
    sent.unwrap_or(0)
}

// The bytes of a bundle but for its signature: the block messages, the kind 1 message and the trailer.
fn unsigned_len(geometry: Geometry) -> usize
    ensures { result ≡ unsigned_length geometry.block_len geometry.image_len }
{
    geometry.messages_len() + wire::least_len(Kind::Program) + TRAILER_LEN
}

// The block messages, from the start of `out`, and the index behind them. Only `pack` calls this, and nothing is left to refuse.
fn put_blocks(image: &Image, geometry: Geometry, out: &mut [u8]) -> usize
    requires lengths { LengthsOf (image_of image.now) geometry }
    requires room { length (block_messages digest (image_of image.now) (count (image_of image.now))) ≤ length out.old }
    ensures { (result ≡ length (block_messages digest (image_of image.now) (count (image_of image.now))))
        × (out.new ≡ at_start (block_messages digest (image_of image.now) (count (image_of image.now))) out.old) }
{
    let n = geometry.count() as u32;
    let mut at: usize = 0;
    for number in 1..=n {
        at += sent_len(image.block(number, &mut out[at..]));
    }
    at
}

// Refusals 5 and 8, in this order; then the bundle at the start of `out`, and no other byte.
pub fn pack(job: &Job, signature: &[u8], out: &mut [u8]) -> Result<usize, Refusal>
    ensures { Does as_is (send_bundle (job_of job.now) signature.now out.old) result out.new }
{
    let geometry = job.image.geometry()?;
    let least = unsigned_len(geometry);
    if too_short(out.len(), least, signature.len()) {
        return Err(Refusal::Area);
    }
    let at = put_blocks(&job.image, geometry, out);
    let distance = sent_len(job.program(signature, &mut out[at..]));
    let end = at + distance;
    copy(out, end, &((distance % 0x100000000) as u32).to_be_bytes());
    Ok(end + TRAILER_LEN)
}
