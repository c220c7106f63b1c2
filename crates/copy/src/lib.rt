// Lent slices copied, so that a service can be tried on a copy of an image. What has no room is left out.
#![tactic(auto)]

ghost use Rattle.std.specs.Prelude.{◌≡◌, ◌++◌, length, take, drop};
ghost use Rattle.step.specs.Done.{written};

use label::Flash;

fn put<T: Copy>(to: &mut [T], from: &[T])
    ensures { to.new ≡ take (length to.old) from.now ++ drop (length from.now) to.old }
{
    let n = to.len().min(from.len());
    to[..n].copy_from_slice(&from[..n]);
}

/// The tags, paths and contents of an image, copied to ts, ps and xs.
#[tactic(auto, unfolding(step::specs::Done::written))]
pub fn image(flash: &Flash, ts: &mut [u8], ps: &mut [u64], xs: &mut [u8])
    ensures ts_after { ts.new ≡ written ts.old flash.now.tags.now }
    ensures ps_after { ps.new ≡ written ps.old flash.now.paths.now }
    ensures xs_after { xs.new ≡ written xs.old flash.now.contents.now }
{
    put(ts, flash.tags);
    put(ps, flash.paths);
    put(xs, flash.contents);
}
