// The bare manifest and the messages. Refusals 5, 11, 8, in this order; then the bytes at the start of the buffer and no others.
ghost use Rattle.std.specs.Prelude.{◌≡◌, false, Some, MatchResult, [], ◌∷◌, length};
ghost use Rattle.sha256.specs.Sha256.{digest};
ghost use Rattle.wire.specs.Refusal.{first_that_applies};
ghost use Rattle.wire.specs.Size as spec;
ghost use Rattle.sender.specs.Job.{count, manifest_for};
ghost use Rattle.sender.specs.Send.{Does, as_is, send_manifest, send_program, send_block, send_update, send_path};
ghost use Rattle.sender.specs.Given.{image_of, job_of, LengthsOf};

use merkle::Blocks;
use wire::{
    Geometry, Kind, MANIFEST_LEN, Manifest, Refusal, least_len, outside, put_block, put_manifest,
    put_program, put_successor, too_short,
};

// An image and the bytes of its blocks (01: L): all that a block message is made of. Wrong sizes may be given: they are refused.
#[derive(Clone, Copy, Debug, PartialEq, Eq)]
pub struct Image<'a> {
    pub bytes: &'a [u8],
    pub block_len: u32,
}

// All that a manifest is made of, and so every other message but for its signature.
#[derive(Clone, Copy, Debug, PartialEq, Eq)]
pub struct Job<'a> {
    pub image: Image<'a>,
    pub model: u32,
    pub serial: u32,
}

impl Image<'_> {
    // The lengths. Refusal 5.
    pub fn geometry(&self) -> Result<Geometry, Refusal>
        ensures { MatchResult result (λ geometry. LengthsOf (image_of self.now) geometry)
            (λ refusal. Some refusal ≡ first_that_applies ((Refusal.Size, spec.wrong_size self.now.block_len (length self.now.bytes.now)) ∷ [])) }
    {
        Geometry::new(self.block_len as usize, self.bytes.len())
    }

    // The lengths, for a message with this number. Refusals 5 and 11.
    fn geometry_at(&self, number: u32) -> Result<Geometry, Refusal>
        ensures { MatchResult result (λ geometry. LengthsOf (image_of self.now) geometry × (spec.outside (count (image_of self.now)) number ≡ false))
            (λ refusal. Some refusal ≡ first_that_applies ((Refusal.Size, spec.wrong_size self.now.block_len (length self.now.bytes.now)) ∷ (Refusal.Turn, spec.outside (count (image_of self.now)) number) ∷ [])) }
    {
        let geometry = self.geometry()?;
        if outside(geometry.count(), number as usize) {
            return Err(Refusal::Turn);
        }
        Ok(geometry)
    }

    // The blocks, for the tree over them.
    fn blocks(&self, geometry: Geometry) -> Blocks<'_>
        requires { LengthsOf (image_of self.now) geometry }
        ensures { (result.bytes.now ≡ self.now.bytes.now) × (result.len ≡ self.now.block_len) × (result.count ≡ count (image_of self.now)) }
    {
        geometry.blocks(self.bytes)
    }

    // Kind 2, block `number`, from 1. As every function for outsiders here, it answers how many bytes were written.
    pub fn block(&self, number: u32, out: &mut [u8]) -> Result<usize, Refusal>
        ensures { Does as_is (send_block (image_of self.now) number out.old) result out.new }
    {
        let geometry = self.geometry_at(number)?;
        let i = number as usize;
        let due = geometry.due_len(i);
        if out.len() < due {
            return Err(Refusal::Area);
        }
        let blocks = self.blocks(geometry);
        let block = geometry.block(self.bytes, i);
        let from = put_block(number as u16, block, out);
        blocks.write_siblings(&mut out[from..], i - 1);
        Ok(due)
    }
}

impl Job<'_> {
    // The manifest for these values, where the image has these lengths: its callers have them from `Image::geometry`, and a job with its lengths would be a type for these
    // calls alone.
    fn to_manifest(&self, geometry: Geometry) -> Manifest
        requires { LengthsOf (image_of self.now.image) geometry }
        ensures { result ≡ manifest_for digest (job_of self.now) }
    {
        let blocks = self.image.blocks(geometry);
        let mut root = [0u8; merkle::HASH_LEN];
        blocks.root(&mut root);
        Manifest {
            version: 1,
            block_len: geometry.block_len as u16,
            model: self.model,
            serial: self.serial,
            image_len: geometry.image_len as u32,
            root,
        }
    }

    // The manifest, for signing.
    pub fn manifest(&self, out: &mut [u8]) -> Result<usize, Refusal>
        ensures { Does as_is (send_manifest (job_of self.now) out.old) result out.new }
    {
        let geometry = self.image.geometry()?;
        if out.len() < MANIFEST_LEN {
            return Err(Refusal::Area);
        }
        put_manifest(self.to_manifest(geometry), out);
        Ok(MANIFEST_LEN)
    }

    // Kind 1, new program.
    pub fn program(&self, signature: &[u8], out: &mut [u8]) -> Result<usize, Refusal>
        ensures { Does as_is (send_program (job_of self.now) signature.now out.old) result out.new }
    {
        let geometry = self.image.geometry()?;
        let least = least_len(Kind::Program);
        if too_short(out.len(), least, signature.len()) {
            return Err(Refusal::Area);
        }
        put_program(self.to_manifest(geometry), signature, out);
        Ok(least + signature.len())
    }

    // Kind 3, the update to this image of block `number`, from 1.
    pub fn update(&self, number: u32, signature: &[u8], out: &mut [u8]) -> Result<usize, Refusal>
        ensures { Does as_is (send_update (job_of self.now) number signature.now out.old) result out.new }
    {
        let geometry = self.image.geometry_at(number)?;
        let i = number as usize;
        let least = geometry.least_update(i);
        if too_short(out.len(), least, signature.len()) {
            return Err(Refusal::Area);
        }
        let new = geometry.block(self.image.bytes, i);
        let manifest = self.to_manifest(geometry);
        let from = put_successor(Kind::Update as u8, manifest, number as u16, new, out);
        octets::copy(out, from, signature);
        Ok(from + signature.len())
    }

    // Kind 4, the update to this image of block `number`, from 1, with the siblings of that block.
    pub fn path_update(
        &self,
        number: u32,
        signature: &[u8],
        out: &mut [u8],
    ) -> Result<usize, Refusal>
        ensures { Does as_is (send_path (job_of self.now) number signature.now out.old) result out.new }
    {
        let geometry = self.image.geometry_at(number)?;
        let i = number as usize;
        let least = geometry.least_path(i);
        if too_short(out.len(), least, signature.len()) {
            return Err(Refusal::Area);
        }
        let new = geometry.block(self.image.bytes, i);
        let manifest = self.to_manifest(geometry);
        let blocks = self.image.blocks(geometry);
        let from = put_successor(Kind::PathUpdate as u8, manifest, number as u16, new, out);
        blocks.write_path(&mut out[from..], i - 1);
        octets::copy(out, least, signature);
        Ok(least + signature.len())
    }
}
