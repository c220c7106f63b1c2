// Where a path may stand among the keys: near has the slot of the path last seen with these low bits, and place where that slot stood.
// Both are guesses that are tested before they are used, so nothing rests on them but speed. A slot does not move; after a create and a
// remove the positions from there on are numbered anew.
ghost use Rattle.std.specs.Prelude.{◌≡◌, ◌≤◌, ◌<◌, ◌+◌, ◌-◌, length, get_or};
ghost use Rattle.tree.specs.Shift.{opened, closed};
ghost use Rattle.tree.specs.Tree.{Rising, Slots, Stands};
ghost use Rattle.replay.specs.Near.{renumbered};

/// A path among the first n keys, looked for first where slot s stood.
pub fn find(
    keys: &[u32; 256],
    n: usize,
    path: u32,
    place: &[u8; 256],
    s: u8,
) -> Result<usize, usize>
    requires { (n ≤ 256) × Rising keys.now n }
    ensures { Stands keys.now n path result }
{
    tree::find_near(keys, n, path, place[s as usize])
}

/// The slots at the positions from `from` up to n have their places.
fn renumber(place: &mut [u8; 256], slots: &[u32; 256], from: usize, n: usize)
    requires { (n ≤ 256) × Slots slots.now }
    ensures { place.new ≡ renumbered slots.now from (n - from) place.old }
{
    for k in from..n {
        place[slots[k] as usize] = k as u8;
    }
}

/// The first free slot, taken for position i among the first n; those from there on have their places.
pub fn open_slot(slots: &mut [u32; 256], place: &mut [u8; 256], n: usize, i: usize) -> u32
    requires { (i ≤ n) × (n < 256) × (length slots.old ≡ 256) × Slots slots.old }
    ensures value { (result ≡ get_or slots.old n 0) × (slots.new ≡ opened n i (get_or slots.old n 0) slots.old) }
    ensures place_after { place.new ≡ renumbered slots.new i (n + 1 - i) place.old }
{
    let s = slots[n];
    tree::open_at(slots, n, i, s);
    renumber(place, slots, i, n + 1);
    s
}

/// The slot of position i among the first n, given back; those that stood past it have their places.
pub fn close_slot(slots: &mut [u32; 256], place: &mut [u8; 256], n: usize, i: usize)
    requires { (i < n) × (n ≤ 256) × (length slots.old ≡ 256) × Slots slots.old }
    ensures slots_after { slots.new ≡ closed n i slots.old }
    ensures place_after { place.new ≡ renumbered slots.new i (n - 1 - i) place.old }
{
    tree::close_at(slots, n, i);
    renumber(place, slots, i, n - 1);
}
