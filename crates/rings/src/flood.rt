// The flood: lines are reached one after the other from the first on, each by a half-step from one that was reached before. `queue` has them in that
// order, and `via` has for each line the one that it was reached from, or the number of lines where it is not reached yet; the first has itself.
//
// Each line of the queue is looked from once, along its own half-steps. Its contracts cite specs/Flooding.antt.
ghost use Rattle.rings.specs.Flooding.{LookFrom, Looked, ScanFrom, Scanned, Unflooded, Found};

use crate::steps::far_end;
use groups::Groups;
use network::chains::Chains;

// Reaches lines from b on until d is reached. A way leads there, so that the queue does not run out before.
pub(crate) fn flood(
    lines: usize,
    b: usize,
    d: usize,
    groups: &Groups,
    chains: &Chains<2048, 4096>,
    via: &mut [u16; 2048],
)
    requires { Unflooded lines b d groups.now chains.now.heads chains.now.nexts via.old }
    ensures { Found lines b d groups.now via.new }
{
    let mut queue = [0u16; 2048];
    queue[0] = b as u16;
    via[b] = b as u16;
    let mut n = 1;
    let mut head = 0;
    while lines <= via[d] as usize {
        let x = queue[head] as usize;
        n = scan(lines, x, n, groups, chains, &mut queue, via);
        head += 1;
    }
}

// Looks along each half-step that leaves x, and answers how many lines then are in the queue.
fn scan(
    lines: usize,
    x: usize,
    n: usize,
    groups: &Groups,
    chains: &Chains<2048, 4096>,
    queue: &mut [u16; 2048],
    via: &mut [u16; 2048],
) -> usize
    requires { ScanFrom lines x n groups.now chains.now.heads chains.now.nexts queue.old via.old }
    ensures { Scanned lines x n result groups.now queue.old via.old queue.new via.new }
{
    let mut k = n;
    let mut s = chains.heads[x] as usize;
    while s < 2 * lines {
        k = look(lines, x, s, k, groups, queue, via);
        s = chains.nexts[s] as usize;
    }
    k
}

// Looks from x along the half-step s, and puts the line that it leads to behind the queue if it is new.
fn look(
    lines: usize,
    x: usize,
    s: usize,
    n: usize,
    groups: &Groups,
    queue: &mut [u16; 2048],
    via: &mut [u16; 2048],
) -> usize
    requires { LookFrom lines x s n groups.now queue.old via.old }
    ensures { Looked lines s n result groups.now queue.old via.old queue.new via.new }
{
    let y = far_end(s, groups);
    if (via[y] as usize) < lines {
        return n;
    }
    queue[n] = y as u16;
    via[y] = x as u16;
    n + 1
}
