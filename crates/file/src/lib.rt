// The read of a file as a service: the mount's refusals, then NOFILE, then the bytes.
#![tactic(auto)]

ghost use Rattle.std.specs.List.{find};
ghost use Rattle.std.specs.Prelude.{◌≡◌, ◌==◌, ◌-◌, ◌^◌, ◌<◌, min, [], length, get_or, EachIndex, IfSome};
ghost use Rattle.meaning.specs.Replay.{look};
ghost use Rattle.meaning.specs.Services.{buffer_after, read as the_read};
ghost use Rattle.label.specs.Lent.{lent_of};
ghost use Rattle.file.specs.File.{answer, length_of};

use label::Flash;
use meaning::{Record, Refusal};
use shown::Shown;

// The record of a path.
fn record_of(records: &[Record], path: u64) -> Option<Record>
    ensures value { result ≡ find (λ f. f.path == path) records.now }
    ensures path { IfSome result (λ f. f.path ≡ path) }
{
    records.iter().copied().find(|f| u64::from(f.path) == path)
}

// The length of a plain file; none: "path absent or a directory".
#[tactic(auto, using(crate::proofs::Files::lengths))]
fn length_of(records: &[Record], path: u64) -> Option<u32>
    ensures value { result ≡ length_of (look path records.now) }
    ensures low { IfSome result (λ n. path < 2 ^ 32) }
{
    let f = record_of(records, path)?;
    if tree::is_dir(f.perm) {
        None
    } else {
        Some(f.length)
    }
}

/// "min(buffer, length − x) bytes, 0 if x ≥ length".
pub fn count(room: usize, length: u32, x: u64) -> usize
    ensures { result ≡ min room (length - x) }
{
    room.min(u64::from(length).saturating_sub(x) as usize)
}

// That each row's path has 32 bits is in its type, but it is known only of a row that is looked at: the loop does nothing else.
fn low_paths(xs: &[[u32; 4]])
    ensures { EachIndex xs.now (λ i. get_or (get_or xs.now i []) 0 0 < 2 ^ 32) }
{
    for row in xs {
        let _ = row[0];
    }
}

/// "Read at offset x copies min(buffer, length − x) bytes, 0 if x ≥ length, and says how many".
pub fn read(flash: &Flash, path: u64, x: u64, buffer: &mut [u8]) -> Result<usize, Refusal>
    ensures result_value { answer result ≡ the_read flash.now.geometry (lent_of flash.now) path x (length buffer.old) }
    ensures buffer_after { buffer.new ≡ buffer_after flash.now.geometry (lent_of flash.now) path x buffer.old }
{
    let p = plan::select(flash)?;
    let mut extents = [[0u32; 4]; 1024];
    let mut s = Shown::none();
    shown::show(flash, &mut extents, &mut s)?;
    let length = length_of(&s.records[0..s.files], path).ok_or(Refusal::NoFile(path))?;
    let n = count(buffer.len(), length, x);
    if 0 < n {
        let xs = &extents[0..s.extents];
        low_paths(xs);
        read::copy(flash, p, xs, path as u32, x as u32, n, buffer);
    }
    Ok(n)
}
