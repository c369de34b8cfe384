// 01, 'Counts worked out by hand': all block messages for T = 2,048 and L = 256 have 2,296 bytes.
use sender::Image;
use std::io;

// The line on block messages.
pub fn run(rt: &impl Print) -> io::Result<()> {
    print!(rt; "block messages, 2048 bytes by 256:")?;
    let bytes = [0x5Au8; 2048];
    let image = Image {
        bytes: &bytes,
        block_len: 256,
    };
    let mut total: usize = 0;
    for number in 1..=8 {
        let n = written(&image, number);
        print!(rt; " {n}")?;
        total = total.wrapping_add(n);
    }
    println!(rt; ", together {total}")
}

// The bytes of a block message; 0 where it is refused.
fn written(image: &Image, number: u32) -> usize {
    let mut out = [0u8; 1024];
    image.block(number, &mut out).unwrap_or(0)
}
