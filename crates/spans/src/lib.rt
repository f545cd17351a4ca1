// The tables that the two walks go by: of each line where it leaves and how high it ends, the back lines chained by their ends, and the vertex below each.
#![tactic(auto)]

ghost use Rattle.std.specs.Prelude.{cond, ◌≡◌, ◌+◌, ◌<◌};
ghost use Rattle.laws.specs.Lists.{at};
ghost use Rattle.laws.specs.Chains.{Chainable, Unchained, Chained};
ghost use Rattle.tree.specs.Tree.{Tree};
ghost use Rattle.spans.specs.Inside.{Spannable, Spanned, Lowerable, Lowered};

use fork::{Forks, NOWHERE};
use network::Kind;
use network::chains::Chains;

// Of each vertex, or of the tree line up to it, what the way down from it skips.
#[derive(Drop)]
pub struct Jumps {
    // The vertex that the way down goes on to: at first the one below.
    pub onward: [u16; 512],
    // The least rival of the tree lines from here down to there: at first that of the line up to here.
    pub least: [u16; 512],
    // The top of one of them that has that rival: at first none.
    pub held: [u16; 512],
}

// Where each line leaves, and the height at which each back line ends. A tree line goes up from the lower of its ends, a back line down from the higher.
// A back line is its own top, and as low as high; a tree line has no top as yet, and what stands in its low means nothing.
pub fn span(lines: usize, ends: &[u16], kinds: &[u8; 2048], heights: &[u16; 512], forks: &mut Forks)
    ghost S: { Tree }
    requires { Spannable S lines ends.now kinds.now heights.now forks.old }
    ensures { Spanned S forks.new }
{
    for k in 0..lines {
        let a = ends[2 * k];
        let b = ends[2 * k + 1];
        let first = heights[a as usize];
        let second = heights[b as usize];
        let tree = kinds[k] == Kind::TREE;
        let forward = (first < second) == tree;
        let end = choose(forward, second, first);
        forks.source[k] = choose(forward, a, b);
        forks.stop[k] = choose(tree, NOWHERE, end);
        forks.low[k] = end;
        forks.high[k] = choose(tree, 0, end);
        forks.top[k] = choose(tree, lines as u16, k as u16);
    }
}

// x where the test holds, else y.
pub fn choose(test: bool, x: u16, y: u16) -> u16
    ensures { result ≡ cond test x y }
{
    if test { x } else { y }
}

// The back lines chained by their ends, from the last line down, so that each goes before what its chain had. (The tree lines have a chain too: nobody
// goes along it.)
pub fn chain(lines: usize, forks: &Forks, chains: &mut Chains<513, 2048>)
    requires chainable { Chainable 513 2048 lines (at forks.now.stop) }
    requires unchained { Unchained 513 2048 lines chains.old.heads chains.old.nexts }
    ensures { Chained 513 2048 lines (at forks.now.stop) chains.new.heads chains.new.nexts }
{
    chains.by(lines, |k| forks.stop[k] as usize);
}

// The vertex below each.
pub fn lower(
    vertices: usize,
    heights: &[u16; 512],
    parents: &[u16; 512],
    forks: &Forks,
    jumps: &mut Jumps,
)
    ghost S: { Tree }
    requires { Lowerable S vertices heights.now parents.now forks.now jumps.old }
    ensures { Lowered S jumps.new }
{
    for v in 0..vertices {
        if 0 < heights[v] {
            jumps.onward[v] = forks.source[parents[v] as usize];
        }
    }
}
