// Left and right: the first aligned choice of a network, and the next one after a given one.
//
// `first` and `next` are the calls; their contracts cite specs/Calls.antt. `beginning` is what they, and draw, begin with.
#![tactic(auto)]

pub mod beginning;

ghost use Rattle.network.specs.Numbers.{answered};
ghost use Rattle.choice.specs.Calls.{FirstChoice, NextChoice};

use crate::beginning::{Beginning, begin};
use network::Refusal;

// Writes the first aligned choice, and answers how many back lines there are. Where no choice obeys the fork rule it writes a ring of constraints that
// shows why, and refuses with the ring's length.
pub fn first(
    vertices: usize,
    ends: &[u16],
    choice: &mut [u8],
    ring_lines: &mut [u16],
    ring_kinds: &mut [u8],
) -> Result<usize, Refusal>
    ensures { FirstChoice vertices ends.now choice.old ring_lines.old ring_kinds.old
        (answered result) choice.new ring_lines.new ring_kinds.new }
{
    let lines = ends.len() / 2;
    if network::is_oversize(vertices, ends.len()) {
        return Err(Refusal::Oversize);
    }
    if network::is_odd(ends.len()) {
        return Err(Refusal::Cramped);
    }
    if choice.len() < lines {
        return Err(Refusal::Cramped);
    }
    if ring_lines.len() < lines {
        return Err(Refusal::Cramped);
    }
    if ring_kinds.len() < lines {
        return Err(Refusal::Cramped);
    }
    let mut beginning = Beginning::blank();
    begin(vertices, ends, &mut beginning)?;
    match beginning.outcome {
        Ok(()) => {
            beginning.groups.first(lines, choice);
            Ok(lines + 1 - vertices)
        }
        Err(tear) => {
            let size = rings::show(
                lines,
                &beginning.groups,
                tear.one,
                tear.two,
                tear.wants,
                ring_lines,
                ring_kinds,
            );
            Err(Refusal::Ringed(size))
        }
    }
}

// Puts the next aligned choice in the place of the lent one, and answers how many back lines there are.
pub fn next(vertices: usize, ends: &[u16], choice: &mut [u8]) -> Result<usize, Refusal>
    ensures { NextChoice vertices ends.now choice.old (answered result) choice.new }
{
    let lines = ends.len() / 2;
    if network::is_oversize(vertices, ends.len()) {
        return Err(Refusal::Oversize);
    }
    if network::is_odd(ends.len()) {
        return Err(Refusal::Cramped);
    }
    if choice.len() < lines {
        return Err(Refusal::Cramped);
    }
    let mut beginning = Beginning::blank();
    begin(vertices, ends, &mut beginning)?;
    if beginning.outcome.is_err() {
        return Err(Refusal::Unaligned);
    }
    if !beginning.groups.fits(lines, choice) {
        return Err(Refusal::Unaligned);
    }
    if !beginning.groups.next(lines, choice) {
        return Err(Refusal::Last);
    }
    Ok(lines + 1 - vertices)
}
