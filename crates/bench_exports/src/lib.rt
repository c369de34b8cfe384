// What bench/digest.c measures, for C to call.
#![tactic(auto)]

ghost use Rattle.std.specs.Prelude.{◌≡◌};
ghost use Rattle.sha256.specs.Sha256.{digest};

// The digest in one call.
#[unsafe(no_mangle)]
pub extern "C" fn bench_digest(message: &[u8], out: &mut [u8; 32])
    ensures { out.new ≡ digest message.now }
{
    sha256::digest(message, out);
}

// The digest of a message that is fed in pieces of the given length; 0 counts as 1.
#[unsafe(no_mangle)]
pub extern "C" fn bench_pieces(message: &[u8], piece: usize, out: &mut [u8; 32])
    ensures { out.new ≡ digest message.now }
{
    let mut context = sha256::Context::new();
    for part in message.chunks(piece.max(1)) {
        context = context.update(part);
    }
    context.finish(out);
}
