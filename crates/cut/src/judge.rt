// Whether a cut image shows what the image showed before: the listing, and the bytes of the files.
use label::Flash;
use meaning::Record;

/// What the image showed before the first step: its listing, and its files.
#[derive(Clone, Copy)]
pub struct Before<'a> {
    pub listed: &'a [u8],
    pub files: &'a [Record],
}

fn same_listing(cut: &Flash, listed: &[u8], out: &mut [u8]) -> bool {
    let n = lister::put_listing(out, 0, cut);
    match out.get(..n) {
        None => false,
        Some(now) => listed == now,
    }
}

fn same_piece(flash: &Flash, cut: &Flash, path: u32, x: u64) -> bool {
    let mut a = [0u8; 512];
    let mut b = [0u8; 512];
    let read = file::read(flash, u64::from(path), x, &mut a);
    match (read, file::read(cut, u64::from(path), x, &mut b)) {
        (Ok(m), Ok(n)) => m == n && a == b,
        _ => false,
    }
}

fn same_bytes(flash: &Flash, cut: &Flash, path: u32, length: u32) -> bool {
    for piece in 0..u64::from(length).div_ceil(512) {
        if !same_piece(flash, cut, path, 512 * piece) {
            return false;
        }
    }
    true
}

// A folder has no bytes.
fn same_file(flash: &Flash, cut: &Flash, f: &Record) -> bool {
    tree::is_dir(f.perm) || same_bytes(flash, cut, f.path, f.length)
}

/// Whether a cut image shows the same as before: the listing, which is written to `out`, and every plain file.
pub fn shows_same(flash: &Flash, cut: &Flash, before: &Before, out: &mut [u8]) -> bool {
    same_listing(cut, before.listed, out) && before.files.iter().all(|f| same_file(flash, cut, f))
}
