// Refusals 1 to 6, and the log as the labels plan it. Of the contents only the length is looked at. Each question about one place is
// a function of its own, so the scans are bare.
#![tactic(auto)]

ghost use Rattle.std.specs.Prelude.{◌≡◌, ◌+◌, ◌*◌, ◌≤◌, ◌<◌, min, length};
ghost use Rattle.base.specs.Choice.{test};
ghost use Rattle.base.specs.Scan.{first};
ghost use Rattle.meaning.specs.declared.Tag.TheVariants as means;
ghost use Rattle.meaning.specs.Flash.{bad_path, bad_tag, copy_of, fits as the_fits, log_r, successor};
ghost use Rattle.meaning.specs.Labels.{of_generation, unplaced, active_generation, bad_log, boot_gap, dropped, find as the_find, gap, generation_at, has as the_has, has_generation, in_active, in_swept, leads as the_leads, log_plan, lowest_number, placed as the_placed, stray as the_stray, unbroken as the_unbroken, unresolved};
ghost use Rattle.label.specs.Lent.{blocks, labels, lent_of, view_of};
ghost use Rattle.label.specs.Search.{found, Noted};
ghost use Rattle.plan.specs.Ask.{apart, bearer, low_bits, lower, NumberFrom, Numbers, Tallied};
ghost use Rattle.plan.specs.Select.{selected};

use label::{Flash, Generation};
use meaning::{Block, Geometry, Number, Plan, Refusal, Tag};

// ---- GEOMETRY

/// Whether the slices have the lengths that the geometry says.
#[tactic(auto, unfolding(meaning::specs::Flash::fits))]
pub fn fits(flash: &Flash) -> bool
    ensures { result ≡ the_fits flash.now.geometry (lent_of flash.now) }
{
    let blocks = flash.geometry.blocks as usize;
    label::good_geometry(flash.geometry)
        && flash.tags.len() == blocks
        && flash.paths.len() == blocks
        && flash.contents.len() == blocks * label::block_size(flash.geometry) as usize
}

// ---- TAG and PATH

fn bad_tag_at(flash: &Flash, b: Block) -> bool
    ensures { result ≡ bad_tag ((labels flash.now).tag b.0) }
{
    flash.label_at(b).bad_tag()
}

fn bad_tag(flash: &Flash) -> Option<Block>
    ensures { result ≡ found (first (blocks flash.now) (λ i. bad_tag ((labels flash.now).tag i))) }
{
    for i in 0..flash.tags.len() {
        if bad_tag_at(flash, Block(i)) {
            return Some(Block(i));
        }
    }
    None
}

fn bad_path_at(flash: &Flash, b: Block) -> bool
    ensures { result ≡ bad_path ((labels flash.now).tag b.0) ((labels flash.now).path b.0) }
{
    flash.label_at(b).bad_path()
}

fn bad_path(flash: &Flash) -> Option<Block>
    ensures { result ≡ found (first (blocks flash.now) (λ i. bad_path ((labels flash.now).tag i) ((labels flash.now).path i))) }
{
    for i in 0..flash.tags.len() {
        if bad_path_at(flash, Block(i)) {
            return Some(Block(i));
        }
    }
    None
}

// ---- COPIES

fn copy_at(flash: &Flash, b: Block) -> Generation
    ensures { result.0 ≡ copy_of ((labels flash.now).path b.0) }
{
    flash.label_at(b).copy()
}

fn are_apart(flash: &Flash, a: Block, b: Block) -> bool
    ensures { result ≡ apart (labels flash.now) a.0 b.0 }
{
    let ga = copy_at(flash, a);
    let gb = copy_at(flash, b);
    !ga.newer(gb) && !gb.newer(ga)
}

fn is_bearer(flash: &Flash, t: Tag, r: u64, from: usize, b: Block) -> bool
    ensures { result ≡ bearer (labels flash.now) t r from b.0 }
{
    from <= b.0 && flash.bears(t, r, b)
}

fn bearer_from(flash: &Flash, t: Tag, r: u64, from: usize) -> Option<Block>
    ensures { result ≡ found (first (blocks flash.now) (bearer (labels flash.now) t r from)) }
{
    for i in from..flash.tags.len() {
        if is_bearer(flash, t, r, from, Block(i)) {
            return Some(Block(i));
        }
    }
    None
}

// "Three, or two that do not follow each other": the copies of b are looked for in turn, in one scan.
fn is_unresolved(flash: &Flash, b: Block) -> bool
    ensures { result ≡ unresolved (blocks flash.now) (labels flash.now) b.0 }
{
    let t = flash.tag_at(b);
    if t == Tag::Free {
        return false;
    }
    let r = flash.path_at(b) / 4;
    let Some(one) = bearer_from(flash, t, r, 0) else {
        return false;
    };
    let Some(two) = bearer_from(flash, t, r, one.0 + 1) else {
        return false;
    };
    if let Some(_) = bearer_from(flash, t, r, two.0 + 1) {
        return true;
    }
    are_apart(flash, one, two)
}

// The low bits of a path's r, as a place among 1024.
fn low_bits(path: u64) -> usize
    ensures { (result ≡ low_bits path) × (result < 1024) }
{
    (path / 4 % 1024) as usize
}

// How many of the paths have the same low bits of r, up to 2.
fn tally(paths: &[u64]) -> [u8; 1024]
    ensures { Tallied paths.now (length paths.now) result }
{
    let mut counts = [0u8; 1024];
    for path in paths {
        let low = low_bits(*path);
        counts[low] = counts[low].min(1) + 1;
    }
    counts
}

// Copies have the same r, so a block that has its low bits alone is not looked for. A block past the end of the paths has no count.
fn is_clashing(flash: &Flash, counts: &[u8; 1024], b: Block) -> bool
    requires { Tallied flash.now.paths.now (length flash.now.paths.now) counts.now }
    ensures { result ≡ unresolved (blocks flash.now) (labels flash.now) b.0 }
{
    if flash.tags.len() <= flash.paths.len() {
        let low = low_bits(flash.path_at(b));
        if counts[low] < 2 {
            return false;
        }
    }
    is_unresolved(flash, b)
}

fn bad_copies(flash: &Flash) -> Option<Block>
    ensures { result ≡ found (first (blocks flash.now) (unresolved (blocks flash.now) (labels flash.now))) }
{
    let counts = tally(flash.paths);
    for i in 0..flash.tags.len() {
        if is_clashing(flash, &counts, Block(i)) {
            let lowest = Block(i);
            return Some(lowest);
        }
    }
    None
}

// ---- BOOT

fn has(flash: &Flash, t: Tag, r: u64) -> bool
    ensures { result ≡ the_has (blocks flash.now) (view_of flash.now t) r }
{
    flash.find(t, r).is_some()
}

fn is_gap(flash: &Flash, r: u64) -> bool
    ensures { result ≡ gap (blocks flash.now) (view_of flash.now means.Boot) r }
{
    r != 0 && !has(flash, Tag::Boot, r - 1)
}

fn boot_gap_at(flash: &Flash, b: Block) -> bool
    ensures { result ≡ test (gap (blocks flash.now) (view_of flash.now means.Boot)) ((view_of flash.now means.Boot) b.0) }
{
    flash.counts(Tag::Boot, b) && is_gap(flash, flash.path_at(b) / 4)
}

fn boot_gap(flash: &Flash) -> bool
    ensures { result ≡ boot_gap (blocks flash.now) (view_of flash.now means.Boot) }
{
    for i in 0..flash.tags.len() {
        if boot_gap_at(flash, Block(i)) {
            return true;
        }
    }
    false
}

// ---- the log's plan

fn is_generation(flash: &Flash, g: Generation, b: Block) -> bool
    ensures { result ≡ of_generation g.0 ((view_of flash.now means.Log) b.0) }
{
    flash.path_at(b) / 4 % 4 == g.0 as u64 && flash.counts(Tag::Log, b)
}

fn has_generation(flash: &Flash, g: Generation) -> bool
    ensures { result ≡ has_generation (blocks flash.now) (view_of flash.now means.Log) g.0 }
{
    for i in 0..flash.tags.len() {
        if is_generation(flash, g, Block(i)) {
            return true;
        }
    }
    false
}

// Generation g is there, and not the one before it.
#[tactic(auto, unfolding(meaning::specs::Labels::leads))]
fn leads(flash: &Flash, g: u8) -> bool
    ensures { result ≡ the_leads (blocks flash.now) (view_of flash.now means.Log) g }
{
    let before = (u16::from(g) + 3) % 4;
    has_generation(flash, Generation(g)) && !has_generation(flash, Generation(before as u8))
}

fn active_generation(flash: &Flash) -> Generation
    ensures { (result.0 ≡ active_generation (blocks flash.now) (view_of flash.now means.Log)) × (result.0 < 4) }
{
    for g in 0..4 {
        if leads(flash, g) {
            return Generation(g);
        }
    }
    Generation(0)
}

// The lower of `best` and the number of b in generation g. Only a lower number is worth the scan for a newer copy.
fn lower_at(flash: &Flash, g: Generation, best: u64, b: Block) -> u64
    ensures { result ≡ lower g.0 best ((view_of flash.now means.Log) b.0) }
{
    let r = flash.path_at(b) / 4;
    if r % 4 != g.0 as u64 {
        return best;
    }
    if r / 4 >= best {
        return best;
    }
    if !flash.counts(Tag::Log, b) {
        return best;
    }
    r / 4
}

// One scan: no number of the generation is looked for by itself.
fn lowest_number(flash: &Flash, g: Generation) -> Number
    requires { g.0 < 4 }
    ensures { result.0 ≡ lowest_number (blocks flash.now) (view_of flash.now means.Log) g.0 }
{
    let mut best = 4096;
    for i in 0..flash.tags.len() {
        best = lower_at(flash, g, best, Block(i));
    }
    if best < 4096 {
        Number(best as u32)
    } else {
        Number(0)
    }
}

// How far the number of log block b lies above `from` in generation g; 1024 where b is not of g, lies elsewhere or does not count: the place
// past the numbers, so that each block marks one place and none is asked whether it has one.
fn number_from(flash: &Flash, marks: &[bool; 1024], g: Generation, from: u32, b: Block) -> usize
    requires { Noted flash.now.paths.now (length flash.now.paths.now) marks.now }
    ensures { (result ≤ 1024) × NumberFrom g.0 from ((view_of flash.now means.Log) b.0) result }
{
    let r = flash.path_at(b) / 4;
    let low = from as u64 * 4 + g.0 as u64;
    if r < low {
        return 1024;
    }
    if (r - low) % 4 != 0 {
        return 1024;
    }
    let above = (r - low) / 4;
    if 1024 <= above {
        return 1024;
    }
    if !flash.counts_noted(marks, Tag::Log, b) {
        return 1024;
    }
    above as usize
}

// Which of the 1024 numbers from `from` up generation g has: one pass over the blocks. The last place takes the other blocks.
fn numbers_from(flash: &Flash, g: Generation, from: u32) -> [bool; 1025]
    ensures { Numbers (view_of flash.now means.Log) g.0 from (blocks flash.now) result }
{
    let marks = label::note_paths(flash.paths);
    let mut numbers = [false; 1025];
    for i in 0..flash.tags.len() {
        let above = number_from(flash, &marks, g, from, Block(i));
        numbers[above] = true;
    }
    numbers
}

fn has_number(flash: &Flash, numbers: &[bool; 1025], g: Generation, from: u32, k: u32) -> bool
    requires { Numbers (view_of flash.now means.Log) g.0 from (blocks flash.now) numbers.now }
    ensures { result ≡ the_has (blocks flash.now) (view_of flash.now means.Log) (k * 4 + g.0) }
{
    if from <= k {
        let above = (k - from) as usize;
        if above < 1024 {
            return numbers[above];
        }
    }
    has(flash, Tag::Log, k as u64 * 4 + g.0 as u64)
}

// How many blocks of generation g there are from number `from` up, below the bound, without gaps.
fn unbroken(flash: &Flash, g: Generation, bound: u32, from: u32) -> usize
    ensures { result ≡ the_unbroken (blocks flash.now) (view_of flash.now means.Log) g.0 bound from (blocks flash.now) }
{
    if from >= bound {
        return 0;
    }
    let numbers = numbers_from(flash, g, from);
    for k in from..bound {
        let count = (k - from) as usize;
        if flash.tags.len() <= count {
            return count;
        }
        if !has_number(flash, &numbers, g, from, k) {
            return count;
        }
    }
    (bound - from) as usize
}

/// The log as the labels plan it. The swept log is counted below the active log's first number, so a block that both have is not
/// replayed from the swept log.
pub fn plan_of(flash: &Flash) -> Plan
    ensures { result ≡ log_plan (blocks flash.now) (labels flash.now) }
{
    let g = active_generation(flash);
    let start = lowest_number(flash, g);
    let swept = unbroken(flash, g.successor(), start.0, 0);
    let active = unbroken(flash, g, 4096, start.0);
    Plan {
        generation: g.0,
        start,
        swept,
        active,
    }
}

fn successor_of(p: Plan) -> Generation
    ensures { result.0 ≡ successor p.generation }
{
    Generation(p.generation).successor()
}

#[tactic(auto, unfolding(meaning::specs::Labels::in_active, meaning::specs::Flash::log_generation, meaning::specs::Flash::log_number))]
fn in_active(p: Plan, r: u64) -> bool
    ensures { result ≡ in_active p r }
{
    let start = u64::from(p.start.0);
    r % 4 == u64::from(p.generation) && (r / 4 < start || r / 4 - start < p.active as u64)
}

#[tactic(auto, unfolding(meaning::specs::Labels::in_swept, meaning::specs::Flash::log_generation, meaning::specs::Flash::log_number))]
fn in_swept(p: Plan, r: u64) -> bool
    ensures { result ≡ in_swept p r }
{
    r % 4 == u64::from(successor_of(p).0) && r / 4 < p.swept as u64
}

#[tactic(auto, unfolding(meaning::specs::Labels::dropped, meaning::specs::Flash::log_generation, meaning::specs::Flash::log_number))]
fn drops(p: Plan, r: u64) -> bool
    ensures { result ≡ dropped p r }
{
    let start = u64::from(p.start.0);
    r % 4 == u64::from(successor_of(p).0) && r / 4 == start && p.swept as u64 == start
}

#[tactic(auto, unfolding(meaning::specs::Labels::placed))]
fn placed(p: Plan, r: u64) -> bool
    ensures { result ≡ the_placed p r }
{
    in_active(p, r) || in_swept(p, r) || drops(p, r)
}

// ---- LOG

fn is_stray(flash: &Flash, p: Plan, b: Block) -> bool
    ensures { result ≡ unplaced p ((view_of flash.now means.Log) b.0) }
{
    !placed(p, flash.path_at(b) / 4) && flash.counts(Tag::Log, b)
}

fn stray(flash: &Flash, p: Plan) -> bool
    ensures { result ≡ the_stray (blocks flash.now) (view_of flash.now means.Log) p }
{
    for i in 0..flash.tags.len() {
        if is_stray(flash, p, Block(i)) {
            return true;
        }
    }
    false
}

#[tactic(auto, unfolding(meaning::specs::Labels::bad_log, meaning::specs::Labels::unswept))]
fn bad_log(flash: &Flash, p: Plan) -> bool
    ensures { result ≡ bad_log (blocks flash.now) (view_of flash.now means.Log) p }
{
    stray(flash, p) || p.start.0 != 0 && !has_generation(flash, successor_of(p))
}

// ---- what the mount asks of the plan

#[tactic(auto, unfolding(meaning::specs::Labels::generation_at, base::specs::Choice::if_less, base::specs::Choice::if_true))]
fn generation_at(p: Plan, n: Number) -> Generation
    ensures { result.0 ≡ generation_at p n.0 }
{
    if n.0 < p.start.0 {
        successor_of(p)
    } else {
        Generation(p.generation)
    }
}

/// The block that is replayed as log block n.
pub fn find_log(flash: &Flash, p: Plan, n: Number) -> Option<Block>
    ensures { result ≡ found (the_find (blocks flash.now) (view_of flash.now means.Log) (log_r n.0 (generation_at p n.0))) }
{
    let g = generation_at(p, n);
    flash.find(Tag::Log, n.0 as u64 * 4 + g.0 as u64)
}

/// "the swept block of that number is neither replayed nor checked and goes on the erase list".
pub fn is_dropped(flash: &Flash, p: Plan, b: Block) -> bool
    ensures { result ≡ test (dropped p) ((view_of flash.now means.Log) b.0) }
{
    drops(p, flash.path_at(b) / 4) && flash.counts(Tag::Log, b)
}

// ---- all of it

/// Refusals 1 to 6, lowest number first, or the plan.
pub fn select(flash: &Flash) -> Result<Plan, Refusal>
    ensures { result ≡ selected flash.now.geometry (lent_of flash.now) }
{
    if !fits(flash) {
        return Err(Refusal::Geometry);
    }
    if let Some(b) = bad_tag(flash) {
        return Err(Refusal::Tag(b));
    }
    if let Some(b) = bad_path(flash) {
        return Err(Refusal::Path(b));
    }
    if let Some(b) = bad_copies(flash) {
        return Err(Refusal::Copies(b));
    }
    if boot_gap(flash) {
        return Err(Refusal::Boot);
    }
    let p = plan_of(flash);
    if bad_log(flash, p) {
        return Err(Refusal::Log);
    }
    Ok(p)
}
