// The rank of each line, by which the lines that leave a vertex nest, and the side of each line. Both are read off the table of forks.
//
// (Each table has its own loop of one line: a function that fills a table by a closure is no plainer, since its callers prove what each call of theirs gives.)
ghost use Rattle.std.specs.Prelude.{◌≡◌, ◌<◌, length};
ghost use Rattle.fans.specs.Nesting.{Tabulated, rank_of, rank_in, Nestable, side_in, Sidable};

use fork::{Forks, NOWHERE};
use side::Side;

// By low, and at equal low those whose returns end at one height before those with more.
pub(crate) fn ranked(lines: usize, forks: &Forks, ranks: &mut [u16; 2048])
    requires nestable { Nestable lines forks.now }
    requires long { length ranks.old ≡ 2048 }
    ensures { Tabulated (rank_in forks.now) lines ranks.new }
{
    for k in 0..lines {
        ranks[k] = rank(forks.low[k] as usize, forks.high[k] as usize) as u16;
    }
}

fn rank(low: usize, high: usize) -> usize
    requires { low < 512 }
    ensures { (result ≡ rank_of low high) × (result < 1024) }
{
    if low < high { 2 * low + 1 } else { 2 * low }
}

// A back line has its own side. A tree line has that of its return that ends highest; without a return it is right.
pub(crate) fn sided(lines: usize, forks: &Forks, choice: &[u8], sides: &mut [u8; 2048])
    requires sidable { Sidable lines choice.now }
    requires long { length sides.old ≡ 2048 }
    ensures { Tabulated (side_in lines forks.now choice.now) lines sides.new }
{
    for k in 0..lines {
        sides[k] = side(lines, k, forks, choice);
    }
}

fn side(lines: usize, k: usize, forks: &Forks, choice: &[u8]) -> u8
    requires sidable { Sidable lines choice.now }
    requires k_within { k < lines }
    ensures { result ≡ side_in lines forks.now choice.now k }
{
    if forks.stop[k] != NOWHERE {
        return choice[k];
    }
    let t = forks.top[k] as usize;
    if t < lines { choice[t] } else { Side::RIGHT }
}
