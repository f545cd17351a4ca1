// The archive for C: each call of `cornetariel` under its own name, with its clauses. For C a slice is a pointer and then a length: see
// include/cornetariel.h. A crate of its own, since a crate that others rest on can't be an archive.
#![tactic(auto)]

ghost use Rattle.cornetariel.specs.Face.{OrientC, FirstC, NextC, DrawC, ReadC, WriteC};

#[unsafe(no_mangle)]
pub extern "C" fn cornetariel_orient(
    vertices: usize,
    ends: &[u16],
    kinds: &mut [u8],
    heights: &mut [u16],
) -> u64
    ensures { OrientC vertices ends.now kinds.old heights.old result kinds.new heights.new }
{
    cornetariel::cornetariel_orient(vertices, ends, kinds, heights)
}

#[unsafe(no_mangle)]
pub extern "C" fn cornetariel_first(
    vertices: usize,
    ends: &[u16],
    choice: &mut [u8],
    ring: &mut [u16],
    kinds: &mut [u8],
) -> u64
    ensures { FirstC vertices ends.now choice.old ring.old kinds.old
        result choice.new ring.new kinds.new }
{
    cornetariel::cornetariel_first(vertices, ends, choice, ring, kinds)
}

#[unsafe(no_mangle)]
pub extern "C" fn cornetariel_next(vertices: usize, ends: &[u16], choice: &mut [u8]) -> u64
    ensures { NextC vertices ends.now choice.old result choice.new }
{
    cornetariel::cornetariel_next(vertices, ends, choice)
}

#[unsafe(no_mangle)]
pub extern "C" fn cornetariel_draw(
    vertices: usize,
    ends: &[u16],
    choice: &[u8],
    order: &mut [u16],
    mesh: &mut [u16],
    sizes: &mut [u16],
) -> u64
    ensures { DrawC vertices ends.now choice.now order.old mesh.old sizes.old
        result order.new mesh.new sizes.new }
{
    cornetariel::cornetariel_draw(vertices, ends, choice, order, mesh, sizes)
}

#[unsafe(no_mangle)]
pub extern "C" fn cornetariel_read(text: &[u8], ends: &mut [u16]) -> u64
    ensures { ReadC text.now ends.old result ends.new }
{
    cornetariel::cornetariel_read(text, ends)
}

#[unsafe(no_mangle)]
pub extern "C" fn cornetariel_write(vertices: usize, ends: &[u16], text: &mut [u8]) -> u64
    ensures { WriteC vertices ends.now text.old result text.new }
{
    cornetariel::cornetariel_write(vertices, ends, text)
}
