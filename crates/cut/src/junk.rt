// What a cut may leave in the block under work: any bytes. Four kinds are tried: zeros, blank, scattered bytes, and pages that each begin
// as a log page may, with a create.

// A create of file 7, `win`, and `e`.
const CREATE: [u8; 35] = [
    0x63, 0x1f, 0, 0, 0, 0, 0, 0xa4, 1, 0, 0, 7, 0, 0, 0, 0x64, 0, 0, 0, 0, 0, 0, 0, 3, 0, 0x77,
    0x69, 0x6e, 1, 0, 0x61, 1, 0, 0x61, 0x65,
];

#[derive(Clone, Copy)]
pub enum Junk {
    Zeros,
    Blank,
    Scattered,
    Create,
}

fn scattered(i: usize) -> u8 {
    let k = i % 4096;
    ((k * 73 + k / 7 * 41 + 5) % 251) as u8
}

impl Junk {
    // The byte at a place of the block.
    fn at(self, i: usize) -> u8 {
        match self {
            Junk::Zeros => 0,
            Junk::Blank => 0xff,
            Junk::Scattered => scattered(i),
            Junk::Create => CREATE.get(i % 256).copied().unwrap_or(0xff),
        }
    }

    pub fn fill(self, block: &mut [u8]) {
        for (i, x) in block.iter_mut().enumerate() {
            *x = self.at(i);
        }
    }
}
