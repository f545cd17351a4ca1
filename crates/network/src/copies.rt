// The first items of a table, laid over the first items of a lent buffer, whose rest stays.
ghost use Rattle.std.specs.Prelude.{◌≡◌, ◌≤◌, length};
ghost use Rattle.laws.specs.Lists.{filled};

pub fn lay<T: Copy>(from: &[T], count: usize, to: &mut [T])
    requires { (count ≤ length from.now) × (count ≤ length to.old) }
    ensures { to.new ≡ filled count from.now to.old }
{
    to[..count].copy_from_slice(&from[..count]);
}
