// A one-time key: that of leaf q of the tree of the key with the identifier I.
#[derive(Clone, Copy, Debug, PartialEq, Eq)]
pub struct Leaf {
    pub id: [u8; 16],
    pub q: u32,
}
