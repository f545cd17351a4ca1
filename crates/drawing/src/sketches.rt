// The drawing, before it is handed out: the groups tell whether the choice is aligned, then come the order, the meshes and the sum.
ghost use Rattle.std.specs.Prelude.{◌/◌, ◌≤◌, length};
ghost use Rattle.tree.specs.Tree.{Tree};
ghost use Rattle.drawing.specs.Drawing.{Sketchable, Undrawn, Drawn, Sketches};

use choice::beginning::{Beginning, begin};
use clockwise::Order;
use fork::Forks;
use network::Refusal;

// What draw hands out; what stands behind it in the tables means nothing.
#[derive(Drop)]
pub(crate) struct Drawing {
    // The lines at the vertices, clockwise, vertex by vertex.
    pub order: Order,
    // The mesh of each direction.
    pub mesh: [u16; 4096],
    // How many meshes there are, and how many lines each has on it.
    pub count: usize,
    pub sizes: [u16; 4097],
}

// Draws where the choice is aligned, and vertices - lines + meshes is 2. (The drawing is lent, so that it is not copied on its way up.)
pub(crate) fn sketch(
    vertices: usize,
    ends: &[u16],
    choice: &[u8],
    drawing: &mut Drawing,
) -> Result<(), Refusal>
    requires choice_long { length ends.now / 2 ≤ length choice.now }
    requires undrawn { Undrawn drawing.old }
    ensures { Sketches vertices ends.now choice.now drawing.new result }
{
    let lines = ends.len() / 2;
    let mut beginning = Beginning::blank();
    begin(vertices, ends, &mut beginning)?;
    if beginning.outcome.is_err() {
        return Err(Refusal::Unaligned);
    }
    if !beginning.groups.fits(lines, choice) {
        return Err(Refusal::Unaligned);
    }
    drawn(
        vertices,
        ends,
        &beginning.finds.parents,
        &beginning.forks,
        choice,
        drawing,
    );
    if vertices + drawing.count != lines + 2 {
        return Err(Refusal::Unbalanced);
    }
    Ok(())
}

// The drawing that a choice gives. A lone vertex has one mesh, with no line on it.
fn drawn(
    vertices: usize,
    ends: &[u16],
    parents: &[u16; 512],
    forks: &Forks,
    choice: &[u8],
    drawing: &mut Drawing,
)
    ghost S: { Tree }
    requires sketchable { Sketchable S vertices ends.now parents.now forks.now choice.now }
    requires undrawn { Undrawn drawing.old }
    ensures { Drawn S vertices ends.now choice.now
        drawing.new.order.row.lines drawing.new.count drawing.new.mesh drawing.new.sizes }
{
    let lines = ends.len() / 2;
    clockwise::ordered(vertices, lines, parents, forks, choice, &mut drawing.order);
    let mut nexts = [0; 4096];
    meshes::turns::linked(
        vertices,
        lines,
        ends,
        &drawing.order.row.lines,
        &drawing.order.starts,
        &mut nexts,
    );
    let found = meshes::numbered(2 * lines, &nexts, &mut drawing.mesh);
    meshes::sized(lines, &drawing.mesh, &mut drawing.sizes);
    drawing.count = if lines == 0 { 1 } else { found };
}
