// Jumps that go on.
ghost use Rattle.falling.specs.Down.{Placed, Extended, Lengthened};

use spans::Jumps;

// From the fifth step of a way on, the jump before each goes on too. (For speed alone: any number is right.)
const SHORT: usize = 4;

// On a way from s, as many steps after it, the jump from s goes on over that from v, and perhaps the jump from p does, which is the one before v.
pub(crate) fn lengthen(s: usize, p: usize, v: usize, steps: usize, jumps: &mut Jumps)
    requires s_placed { Placed s v jumps.old }
    requires p_placed { Placed p v jumps.old }
    ensures { Lengthened s p v jumps.old jumps.new }
{
    extend(s, v, jumps);
    if steps < SHORT {
        return;
    }
    extend(p, v, jumps);
}

// The jump from p goes on to where that from v goes. Of the two the one with the lesser rival tells the rival and the top.
fn extend(p: usize, v: usize, jumps: &mut Jumps)
    requires { Placed p v jumps.old }
    ensures { Extended p v jumps.old jumps.new }
{
    jumps.onward[p] = jumps.onward[v];
    let r = jumps.least[v];
    if jumps.least[p] <= r {
        return;
    }
    jumps.least[p] = r;
    jumps.held[p] = jumps.held[v];
}
