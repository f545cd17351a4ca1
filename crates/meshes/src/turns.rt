// Which direction follows each: at the vertex where it ends, the line after its own in that vertex's order.
ghost use Rattle.std.specs.Prelude.{◌≡◌, ◌+◌, ◌*◌, ◌≤◌, ◌<◌, length};
ghost use Rattle.network.specs.Network.{network_of};
ghost use Rattle.network.specs.Inside.{Fit};
ghost use Rattle.meshes.specs.Meshes.{other_way, leave_by};
ghost use Rattle.meshes.specs.Inside.{place_after, Laid, Linked};

// The direction that follows each, for any order of the lines at the vertices: a flat order, and where each vertex's part of it begins.
pub fn linked(
    vertices: usize,
    lines: usize,
    ends: &[u16],
    order: &[u16; 4096],
    starts: &[u16; 513],
    nexts: &mut [u16; 4096],
)
    requires fit { Fit (network_of vertices lines ends.now) }
    requires laid { Laid (network_of vertices lines ends.now) order.now starts.now }
    requires nexts_len { length nexts.old ≡ 4096 }
    ensures { Linked (network_of vertices lines ends.now) order.now starts.now vertices nexts.new }
{
    for v in 0..vertices {
        link(vertices, lines, v, ends, order, starts, nexts);
    }
}

// The directions that follow those which arrive at v.
fn link(
    vertices: usize,
    lines: usize,
    v: usize,
    ends: &[u16],
    order: &[u16; 4096],
    starts: &[u16; 513],
    nexts: &mut [u16; 4096],
)
    requires fit { Fit (network_of vertices lines ends.now) }
    requires laid { Laid (network_of vertices lines ends.now) order.now starts.now }
    requires linked_below { (v < vertices) × Linked (network_of vertices lines ends.now) order.now starts.now v nexts.old }
    ensures { Linked (network_of vertices lines ends.now) order.now starts.now (v + 1) nexts.new }
{
    let from = starts[v] as usize;
    let count = starts[v + 1] as usize - from;
    for i in 0..count {
        let k = order[from + i] as usize;
        let l = order[from + place_after(count, i)] as usize;
        nexts[reversed(way_out(v, k, ends))] = way_out(v, l, ends) as u16;
    }
}

// The place after i, round so many places.
#[tactic(auto, unfolding(crate::specs::Inside::place_after))]
fn place_after(places: usize, i: usize) -> usize
    requires { (i < places) × (places ≤ 4096) }
    ensures { (result ≡ place_after places i) × (result < places) }
{
    if i + 1 < places { i + 1 } else { 0 }
}

// The direction of line k that leaves v.
#[tactic(auto, unfolding(crate::specs::Meshes::leave_by))]
fn way_out(v: usize, k: usize, ends: &[u16]) -> usize
    requires { (k < 2048) × (2 * k < length ends.now) }
    ensures { (result ≡ leave_by ends.now v k) × (result < 2 * (k + 1)) }
{
    if ends[2 * k] as usize == v {
        2 * k
    } else {
        2 * k + 1
    }
}

// The direction the other way.
#[tactic(auto, unfolding(crate::specs::Meshes::other_way))]
fn reversed(d: usize) -> usize
    requires { d < 4096 }
    ensures { (result ≡ other_way d) × (result < 4096) }
{
    if d % 2 == 0 { d + 1 } else { d - 1 }
}
