// How low the returns of each line end, once the bottoms are known; and how low those of a tree line's rivals, the other lines that leave where it leaves.
#![tactic(auto)]

ghost use Rattle.tree.specs.Tree.{Tree};
ghost use Rattle.lows.specs.Inside.{Bottomed, Plumbed, Comparable, Compared, Weighable, Weighed};

use fork::Forks;
use network::named;
use spans::{Jumps, choose};

// The low of each tree line: where its bottom ends, or where it has none, the height of the vertex that it leaves. (A back line has its own already.)
pub fn measure(
    vertices: usize,
    heights: &[u16; 512],
    parents: &[u16; 512],
    bottoms: &[u16; 512],
    forks: &mut Forks,
)
    ghost S: { Tree }
    requires { Bottomed S vertices heights.now parents.now bottoms.now forks.old }
    ensures { Plumbed S forks.new }
{
    for v in 0..vertices {
        let height = heights[v];
        if 0 < height {
            let f = parents[v] as usize;
            if let Some(b) = named(bottoms[v]) {
                forks.low[f] = forks.stop[b];
            } else {
                forks.low[f] = height - 1;
            }
        }
    }
}

// The rival of each tree line. Of the lows at a vertex the two least are enough: a line whose low is the least has the next as its rival
// (the same number, if another line shares the least), every other line the least.
pub fn rivals(
    vertices: usize,
    lines: usize,
    heights: &[u16; 512],
    parents: &[u16; 512],
    forks: &Forks,
    jumps: &mut Jumps,
)
    ghost S: { Tree }
    requires { Comparable S vertices lines heights.now parents.now forks.now jumps.old }
    ensures { Compared S jumps.new }
{
    let mut firsts = *heights;
    let mut seconds = *heights;
    weigh(lines, forks, &mut firsts, &mut seconds);
    for v in 0..vertices {
        if 0 < heights[v] {
            let u = jumps.onward[v] as usize;
            let low = forks.low[parents[v] as usize];
            jumps.least[v] = choose(low == firsts[u], seconds[u], firsts[u]);
        }
    }
}

// Of the lows of the lines that leave each vertex, and of its height taken twice, the least and the next. The height stands for no line: twice, since a
// line that leaves its vertex alone takes one of the two places.
fn weigh(lines: usize, forks: &Forks, firsts: &mut [u16; 512], seconds: &mut [u16; 512])
    ghost S: { Tree }
    requires { Weighable S lines forks.now firsts.old seconds.old }
    ensures { Weighed S firsts.new seconds.new }
{
    for k in 0..lines {
        let v = forks.source[k] as usize;
        let low = forks.low[k];
        let first = firsts[v];
        firsts[v] = low.min(first);
        seconds[v] = low.max(first).min(seconds[v]);
    }
}
