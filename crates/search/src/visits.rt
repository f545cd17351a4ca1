// The walk: from a vertex up each line that is unused when its turn comes, and back.
ghost use Rattle.std.specs.Prelude.{◌≡◌, ◌+◌, ◌<◌, length, get_or};
ghost use Rattle.laws.specs.Chains.{Chained};
ghost use Rattle.laws.specs.Lists.{at};
ghost use Rattle.network.specs.Network.{network};
ghost use Rattle.search.specs.Inside.{state_of, partner, Halved, Enterable, Entered, SomeCount, EachCount, Visitable, Visited};

use crate::Finds;
use network::Kind;
use network::chains::Chains;

// (The number of vertices is in `SomeCount`: in a cycle of calls a ghost value can't be picked.)
// Visits v, which is found: goes along each line at v that is unused when its turn comes, the lowest number first, and returns.
pub(crate) fn visit(v: usize, ends: &[u16], chains: &Chains<512, 4096>, finds: &mut Finds)
    requires chained { Chained 512 4096 (length ends.now) (at ends.now) chains.now.heads chains.now.nexts }
    requires some_count { SomeCount (λ n. Visitable n ends.now (state_of v finds.old)) }
    ensures { EachCount (λ n. Visitable n ends.now (state_of v finds.old))
        (λ n. Visited (network n ends.now)
        (state_of v finds.old)
        (state_of v finds.new)) }
{
    let mut h = chains.heads[v] as usize;
    while h < ends.len() {
        let after = chains.nexts[h] as usize;
        let k = h / 2;
        if finds.kinds[k] == Kind::UNUSED {
            let w = far(ends, h);
            if finds.found[w] == 0 {
                enter(v, w, k, finds);
                visit(w, ends, chains, finds);
            } else {
                finds.kinds[k] = Kind::BACK;
            }
        }
        h = after;
    }
}

// The end at the other half of the line.
fn far(ends: &[u16], h: usize) -> usize
    requires { Halved h ends.now }
    ensures { result ≡ get_or ends.now (partner h) 0 }
{
    if h % 2 == 0 {
        ends[h + 1] as usize
    } else {
        ends[h - 1] as usize
    }
}

// Goes up line k from v to w, which is new.
fn enter(v: usize, w: usize, k: usize, finds: &mut Finds)
    requires { Enterable v w k finds.old.kinds finds.old.found finds.old.heights finds.old.parents }
    ensures { Entered v w k finds.old.kinds finds.old.found finds.old.heights finds.old.parents
        finds.new.kinds finds.new.found finds.new.heights finds.new.parents }
{
    finds.kinds[k] = Kind::TREE;
    finds.found[w] = 1;
    finds.heights[w] = finds.heights[v] + 1;
    finds.parents[w] = k as u16;
}
