// The clockwise order: at each vertex the line from its parent, then the lines of its fan, each with the lines beside it that come in from above it.
//
// The fans come first (`fans`). Then one walk up the tree takes the lines of each fan in their order; a back line that it discovers is hung, at the vertex where
// it ends, to the company on its side of the tree line that leads there (`walks`). Those found later stand in front, as the order wants them. Last, each
// vertex's lines are written one after the other.
#![tactic(auto)]

mod walks;
mod ways;

ghost use Rattle.laws.specs.Lists.{at};
ghost use Rattle.tree.specs.Tree.{Tree};
ghost use Rattle.fans.specs.Chains.{Appended};
ghost use Rattle.clockwise.specs.Laying.{item_in, Besides, spread_in, Spreads, first_in, Begins, lines_at, Layable, Unlaid, LongOrder, LaidOut};
ghost use Rattle.clockwise.specs.Order.{order_at};
ghost use Rattle.clockwise.specs.Ordering.{Orderable};

use fans::chains::Chains;
use fans::rows::Row;
use fork::Forks;
use network::{Absent, named};
use side::Side;

// The order of the lines at the vertices.
#[derive(Drop)]
pub struct Order {
    // The lines, vertex by vertex.
    pub row: Row,
    // Where each vertex's part begins; after the last vertex, where it ends.
    pub starts: [u16; 513],
}

impl Order {
    // Of no vertex, to be lent to `ordered`.
    pub fn empty() -> Order
        ensures { Unlaid result }
    {
        Order {
            row: Row::empty(),
            starts: [0; 513],
        }
    }
}

// The clockwise order that a choice gives, from the tables of a finished search and of the forks. Written over what is lent.
pub fn ordered(
    vertices: usize,
    lines: usize,
    parents: &[u16; 512],
    forks: &Forks,
    choice: &[u8],
    order: &mut Order,
)
    ghost S: { Tree }
    requires orderable { Orderable S vertices lines parents.now forks.now choice.now }
    requires long { LongOrder order.old }
    ensures { LaidOut vertices (order_at S (at choice.now)) order.new.row.lines order.new.starts }
{
    let mut out = Chains::empty();
    fans::fanned(vertices, lines, forks, choice, &mut out);
    let mut uppers = [Absent::ENTRY; 2048];
    ways::raised(vertices, parents, &mut uppers);
    let mut path = [0u16; 512];
    let mut groups = Chains::empty();
    walks::walk(0, 0, forks, &uppers, choice, &out, &mut path, &mut groups);
    laid(vertices, parents, &uppers, &out, &groups, order)
}

// The whole order.
fn laid(
    vertices: usize,
    parents: &[u16; 512],
    uppers: &[u16; 2048],
    fans: &Chains,
    groups: &Chains,
    order: &mut Order,
)
    requires layable { Layable vertices parents.now uppers.now fans.now groups.now }
    requires long { LongOrder order.old }
    ensures { LaidOut vertices (lines_at parents.now uppers.now fans.now groups.now)
        order.new.row.lines order.new.starts }
{
    order.row.count = 0;
    order.starts[0] = 0;
    for v in 0..vertices {
        begun(v, parents, &mut order.row);
        spread(v, uppers, fans, groups, &mut order.row);
        order.starts[v + 1] = order.row.count as u16;
    }
}

// The line from the parent of v, where it has one.
fn begun(v: usize, parents: &[u16; 512], order: &mut Row)
    requires { Begins v parents.now order.old }
    ensures { Appended (first_in parents.now v) order.old order.new }
{
    if v != 0 {
        order.push(parents[v]);
    }
}

// The lines that leave v, each with those beside it.
fn spread(v: usize, uppers: &[u16; 2048], fans: &Chains, groups: &Chains, order: &mut Row)
    requires { Spreads v uppers.now fans.now groups.now order.old }
    ensures { Appended (spread_in uppers.now fans.now groups.now v) order.old order.new }
{
    let mut next = fans.first(v);
    while let Some(e) = next {
        beside(e, uppers, groups, order);
        next = fans.after(e);
    }
}

// A line with its groups: the left one before it, the right one after it.
fn beside(e: usize, uppers: &[u16; 2048], groups: &Chains, order: &mut Row)
    requires { Besides e uppers.now groups.now order.old }
    ensures { Appended (item_in uppers.now groups.now e) order.old order.new }
{
    let Some(w) = named(uppers[e]) else {
        order.push(e as u16);
        return;
    };
    groups.copied(2 * w + Side::LEFT as usize, order);
    order.push(e as u16);
    groups.copied(2 * w + Side::RIGHT as usize, order);
}
