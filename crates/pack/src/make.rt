// The bytes of slip.bin and bundle.bin. A refusal is told on standard error by its word.
ghost use Rattle.std.specs.Prelude.{◌≡◌, IfSome};
ghost use Rattle.streams.specs.Counts.{IsPrefixLen};
ghost use Rattle.sender.specs.Given.{job_of};
ghost use Rattle.sender.specs.Send.{Does, send_manifest};
ghost use Rattle.bundle.specs.Bundle.{send_bundle};
ghost use Rattle.pack.specs.Make.{made};

use sender::Job;
use wire::Refusal;

// To standard error: a line with a number. That it cannot be told changes nothing.
pub fn print_error(rt: &impl Eprint, before: &str, number: usize, after: &str) {
    let _ = eprint!(rt; "{before}{number}{after}");
}

fn refuse(rt: &impl Eprint, refusal: Refusal) {
    if let Refusal::Size = refusal {
        print_error(
            rt,
            "size: BLOCK must be 64, 128, 256, 512 or 1024, and the image 1 to ",
            merkle::MAX_BLOCKS,
            " blocks long\n",
        );
    } else {
        print_error(
            rt,
            "area: the bundle would have over ",
            bundle::BUNDLE_LEN,
            " bytes\n",
        );
    }
}

// How many bytes were made. What was not made is told.
fn made_of(rt: &impl Eprint, sent: Result<usize, Refusal>) -> Option<usize>
    ensures { result ≡ made sent }
{
    match sent {
        Ok(len) => Some(len),
        Err(refusal) => {
            refuse(rt, refusal);
            None
        }
    }
}

// The manifest, for signing.
pub fn manifest(rt: &impl Eprint, job: &Job, out: &mut [u8]) -> Option<usize>
    ensures { Does made (send_manifest (job_of job.now) out.old) result out.new }
{
    made_of(rt, job.manifest(out))
}

// The bundle, without filler.
pub fn bundle(rt: &impl Eprint, job: &Job, signature: &[u8], out: &mut [u8]) -> Option<usize>
    ensures does { Does made (send_bundle (job_of job.now) signature.now out.old) result out.new }
    ensures prefix_len { IfSome result (λ len. IsPrefixLen len out.new) }
{
    made_of(rt, bundle::pack(job, signature, out))
}
