// The drawing: the clockwise order of the lines at each vertex, and the meshes.
//
// `draw` is the call; its contract cites specs/Draw.antt, whose words stand on the definitions of clockwise/specs/Order.antt and
// meshes/specs/Meshes.antt. `sketches` makes the drawing in tables of its own, so that nothing lent by the caller is written
// before all that can refuse is settled.
#![tactic(auto)]

mod sketches;

ghost use Rattle.std.specs.Prelude.{◌≡◌, ◌+◌, ◌*◌, ◌/◌, ◌≤◌, ◌<◌};
ghost use Rattle.network.specs.Numbers.{answered};
ghost use Rattle.drawing.specs.Draw.{cramped_draw, Draw};
ghost use Rattle.drawing.specs.Settling.{Settling, Wrote};

use crate::sketches::{Drawing, sketch};
use clockwise::Order;
use network::copies::lay;
use network::{Absent, Refusal};

// Writes the clockwise order that an aligned choice gives, the mesh of each direction and the size of each mesh, and answers how many meshes there are.
pub fn draw(
    vertices: usize,
    ends: &[u16],
    choice: &[u8],
    order: &mut [u16],
    mesh: &mut [u16],
    sizes: &mut [u16],
) -> Result<usize, Refusal>
    ensures { Draw vertices ends.now choice.now order.old mesh.old sizes.old
        (answered result) order.new mesh.new sizes.new }
{
    let lines = ends.len() / 2;
    if network::is_oversize(vertices, ends.len()) {
        return Err(Refusal::Oversize);
    }
    if network::is_odd(ends.len()) {
        return Err(Refusal::Cramped);
    }
    if is_cramped(lines, choice.len(), order.len(), mesh.len(), sizes.len()) {
        return Err(Refusal::Cramped);
    }
    let mut drawing = Drawing {
        order: Order::empty(),
        mesh: [Absent::ENTRY; 4096],
        count: 0,
        sizes: [0; 4097],
    };
    sketch(vertices, ends, choice, &mut drawing)?;
    hand_out(lines, &drawing, order, mesh, sizes);
    Ok(drawing.count)
}

// Whether a lent buffer has less room than it needs.
#[tactic(auto, unfolding(crate::specs::Draw::cramped_draw, laws::specs::Tests::either))]
fn is_cramped(lines: usize, choice: usize, order: usize, mesh: usize, sizes: usize) -> bool
    requires { lines ≤ 2048 }
    ensures { result ≡ cramped_draw lines choice order mesh sizes }
{
    if choice < lines {
        return true;
    }
    if order < 2 * lines {
        return true;
    }
    if mesh < 2 * lines {
        return true;
    }
    sizes < 2 * lines + 1
}

// Writes the drawing to the lent buffers.
fn hand_out(lines: usize, drawing: &Drawing, order: &mut [u16], mesh: &mut [u16], sizes: &mut [u16])
    requires { Settling lines drawing.now.count drawing.now.order.row.lines drawing.now.mesh drawing.now.sizes order.old mesh.old sizes.old }
    ensures { Wrote lines drawing.now.count drawing.now.order.row.lines drawing.now.mesh drawing.now.sizes
        order.old mesh.old sizes.old order.new mesh.new sizes.new }
{
    lay(&drawing.order.row.lines, 2 * lines, order);
    lay(&drawing.mesh, 2 * lines, mesh);
    lay(&drawing.sizes, drawing.count, sizes);
}
