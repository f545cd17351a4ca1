// The vertex above each tree line.
ghost use Rattle.std.specs.Prelude.{◌≡◌, replicate};
ghost use Rattle.network.specs.Marks.{absent};
ghost use Rattle.tree.specs.Tree.{Tree};
ghost use Rattle.clockwise.specs.Walks.{Rooted, Uppers};

// Lines that are no tree lines keep the mark for nothing, which the table has throughout before. The root, vertex 0, has no line that leads up to it.
pub(crate) fn raised(vertices: usize, parents: &[u16; 512], uppers: &mut [u16; 2048])
    ghost S: { Tree }
    requires rooted { Rooted S vertices parents.now }
    requires no_uppers { uppers.old ≡ replicate 2048 absent }
    ensures { Uppers S uppers.new }
{
    for v in 1..vertices {
        uppers[parents[v] as usize] = v as u16;
    }
}
