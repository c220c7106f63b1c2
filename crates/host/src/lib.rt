// The services for hosts in C, exported: answers are structs of numbers, and all that is lent is lent by the host. A slice is two arguments
// in C, its place and its length. include/chimecorona.h declares them.
#![tactic(auto)]

ghost use Rattle.std.specs.Prelude.{◌≡◌, length, map, take};
ghost use Rattle.meaning.specs.Answer.{answer_by};
ghost use Rattle.meaning.specs.Flash.{labels_of};
ghost use Rattle.meaning.specs.Mount.{mount_into, table_after};
ghost use Rattle.meaning.specs.Services.{buffer_after, do_step, leaves, read as the_read, reclaim as the_reclaim, settle as the_settle};
ghost use Rattle.plan.specs.Select.{lent};
ghost use Rattle.outcome.specs.Outcome.{outcome_of, said_of};
ghost use Rattle.step.specs.Done.{answered, stepped};
ghost use Rattle.answer.specs.Mounted.{stands_for, Sized};
ghost use Rattle.reclaim.specs.Reclaimed.{steps_in};
ghost use Rattle.action.specs.Action.{step_of};
ghost use Rattle.direct.specs.Begins.{begins_of, begun, places_after};
ghost use Rattle.direct.specs.Direct.{answered as the_answered, buffer_with};
ghost use Rattle.host.specs.Host.{count_of, reading, reclaiming, settling, Canonical};

use action::Action;
use answer::Mounted;
use label::Flash;
use meaning::{Geometry, Record, Refusal, Step};
use outcome::Outcome;
use reclaim::Steps;
use used::Erase;

/// What a settle answers: the blocks that were erased.
#[repr(C)]
#[derive(Drop)]
pub struct Settled {
    pub said: Outcome,
    pub erase: Erase,
}

/// What a reclaim answers: its list, the first `count` steps.
#[repr(C)]
#[derive(Drop)]
pub struct Reclaimed {
    pub said: Outcome,
    pub count: usize,
    pub steps: [Action; 35],
}

/// What a read answers: how many bytes.
#[repr(C)]
#[derive(Clone, Copy)]
pub struct Count {
    pub said: Outcome,
    pub count: usize,
}

/// Mounts the lent slices. The table's length goes to the core, which refuses any but 256; where it refuses there are no records
/// to store, and the table is not touched. It decides nothing.
#[unsafe(no_mangle)]
pub extern "C" fn chimecorona_mount(
    g: Geometry,
    tags: &[u8],
    paths: &[u64],
    contents: &[u8],
    table: &mut [Record],
) -> Mounted
    ensures { (table.new ≡ table_after g (lent tags.now paths.now contents.now) table.old) × (stands_for result table.new ≡ mount_into g (lent tags.now paths.now contents.now) table.old) × Sized g (lent tags.now paths.now contents.now) result }
{
    let flash = Flash {
        geometry: g,
        tags,
        paths,
        contents,
    };
    let c = answer::show_all(&flash, table.len());
    table::fill(table, &c.all, c.n);
    c.answer
}

/// Erases the blocks on the erase list.
#[unsafe(no_mangle)]
pub extern "C" fn chimecorona_settle(
    g: Geometry,
    tags: &mut [u8],
    paths: &mut [u64],
    contents: &mut [u8],
) -> Settled
    ensures result_value { (settling result ≡ the_settle g (lent tags.old paths.old contents.old)) × Canonical result.said }
    ensures contents_after { lent tags.new paths.new contents.new ≡ leaves g (lent tags.old paths.old contents.old) (the_settle g (lent tags.old paths.old contents.old)) }
{
    match settle::settle(g, tags, paths, contents) {
        Ok(erase) => Settled {
            said: Outcome::from(Ok(())),
            erase,
        },
        Err(x) => Settled {
            said: Outcome::from(x),
            erase: Erase::none(),
        },
    }
}

fn listed(said: Outcome, list: Steps) -> Reclaimed
    ensures { (result.said ≡ said) × (result.count ≡ list.count) × (map step_of (take result.count result.steps) ≡ steps_in list) }
{
    let steps = action::actions_of(list);
    Reclaimed {
        said,
        count: list.count,
        steps,
    }
}

/// Rewrites the data block of that number without its dead pages.
#[unsafe(no_mangle)]
pub extern "C" fn chimecorona_reclaim(
    g: Geometry,
    tags: &mut [u8],
    paths: &mut [u64],
    contents: &mut [u8],
    number: u32,
) -> Reclaimed
    ensures result_value { (reclaiming result ≡ the_reclaim g (lent tags.old paths.old contents.old) number) × Canonical result.said }
    ensures contents_after { lent tags.new paths.new contents.new ≡ leaves g (lent tags.old paths.old contents.old) (the_reclaim g (lent tags.old paths.old contents.old) number) }
{
    match reclaim::reclaim(g, tags, paths, contents, number) {
        Ok(list) => listed(Outcome::from(Ok(())), list),
        Err(x) => listed(Outcome::from(x), Steps::empty()),
    }
}

/// Does one step.
#[unsafe(no_mangle)]
pub extern "C" fn chimecorona_step(
    g: Geometry,
    tags: &mut [u8],
    paths: &mut [u64],
    contents: &mut [u8],
    action: Action,
) -> Outcome
    ensures value { result ≡ outcome_of (answered (do_step g (lent tags.old paths.old contents.old) (step_of action))) }
    ensures contents_after { lent tags.new paths.new contents.new ≡ stepped g (lent tags.old paths.old contents.old) (step_of action) }
{
    let s = Step::from(action);
    Outcome::from(step::do_step(g, tags, paths, contents, s))
}

impl From<Result<usize, Refusal>> for Count {
    ghost from_gives = { λ r c. c ≡ count_of r };

    fn from(r: Result<usize, Refusal>) -> Count {
        match r {
            Ok(n) => Count {
                said: Outcome::from(Ok(())),
                count: n,
            },
            Err(x) => Count {
                said: Outcome::from(x),
                count: 0,
            },
        }
    }
}

/// Copies bytes of one file. It mounts for each read: a host that reads many takes chimecorona_begins and chimecorona_read_mounted.
#[unsafe(no_mangle)]
pub extern "C" fn chimecorona_read(
    g: Geometry,
    tags: &[u8],
    paths: &[u64],
    contents: &[u8],
    path: u64,
    x: u64,
    buffer: &mut [u8],
) -> Count
    ensures result_value { (reading result ≡ the_read g (lent tags.now paths.now contents.now) path x (length buffer.old)) × Canonical result.said }
    ensures buffer_after { buffer.new ≡ buffer_after g (lent tags.now paths.now contents.now) path x buffer.old }
{
    let flash = Flash {
        geometry: g,
        tags,
        paths,
        contents,
    };
    Count::from(file::read(&flash, path, x, buffer))
}

/// Where the bytes of each extent begin in the contents: asked once after a mount, for the reads below.
#[unsafe(no_mangle)]
pub extern "C" fn chimecorona_begins(
    g: Geometry,
    tags: &[u8],
    paths: &[u64],
    contents: &[u8],
    extents: &[[u32; 4]],
    places: &mut [u32],
) -> Outcome
    ensures extents_value { (answer_by (λ x. begins_of g (labels_of tags.now paths.now) extents.now) (said_of result) ≡ begun g (lent tags.now paths.now contents.now) extents.now (length places.old)) × Canonical result }
    ensures places_after { places.new ≡ places_after g (lent tags.now paths.now contents.now) extents.now places.old }
{
    let flash = Flash {
        geometry: g,
        tags,
        paths,
        contents,
    };
    Outcome::from(direct::begins(&flash, extents, places))
}

/// Copies bytes of the file of a record that a mount has shown, with no mount: by its extents, and by where they begin.
#[unsafe(no_mangle)]
pub extern "C" fn chimecorona_read_mounted(
    contents: &[u8],
    file: Record,
    extents: &[[u32; 4]],
    begins: &[u32],
    x: u64,
    buffer: &mut [u8],
) -> Count
    ensures result_value { (reading result ≡ the_answered file (length extents.now) (length begins.now) x (length buffer.old)) × Canonical result.said }
    ensures buffer_after { buffer.new ≡ buffer_with contents.now file extents.now begins.now x buffer.old }
{
    Count::from(direct::read(contents, file, extents, begins, x, buffer))
}
