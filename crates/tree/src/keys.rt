// Positions among the keys, and the shifts that open and close one. Keys and slots are shifted alike.
ghost use Rattle.std.specs.Prelude.{◌≡◌, ◌≤◌, ◌<◌, length};
ghost use Rattle.tree.specs.Shift.{opened, closed};
ghost use Rattle.tree.specs.Tree.{Rising, Stands};

/// Where a path stands among the first n keys, or else where it would.
pub fn find(keys: &[u32; 256], n: usize, path: u32) -> Result<usize, usize>
    requires n_bound { n ≤ 256 }
    requires rising { Rising keys.now n }
    ensures { Stands keys.now n path result }
{
    keys[..n].binary_search(&path)
}

/// The same, looked for first at a place where it may stand. A search costs a wrong guess of the processor at most of its turns; a
/// path found at once costs none.
pub fn find_near(keys: &[u32; 256], n: usize, path: u32, near: u8) -> Result<usize, usize>
    requires n_bound { n ≤ 256 }
    requires rising { Rising keys.now n }
    ensures { Stands keys.now n path result }
{
    let i = near as usize;
    if i < n && keys[i] == path {
        Ok(i)
    } else {
        find(keys, n, path)
    }
}

/// v at position i among the first n, and what stood from there on one place higher.
pub fn open_at(xs: &mut [u32; 256], n: usize, i: usize, v: u32)
    requires { (i ≤ n) × ((n < 256) × (length xs.old ≡ 256)) }
    ensures { xs.new ≡ opened n i v xs.old }
{
    xs.copy_within(i..n, i + 1);
    xs[i] = v;
}

/// What stands at position i moved past the first n, and what stood after it one place lower. A slot is the first free one then.
pub fn close_at(xs: &mut [u32; 256], n: usize, i: usize)
    requires { (i < n) × ((n ≤ 256) × (length xs.old ≡ 256)) }
    ensures { xs.new ≡ closed n i xs.old }
{
    xs[i..n].rotate_left(1);
}
