// The lines of a vertex as a chain of half-lines. A half-line is a place in the list of ends; a chain's half-lines rise, so that a walk along it
// meets the lowest-numbered line first.
ghost use Rattle.std.specs.Prelude.{length};
ghost use Rattle.laws.specs.Lists.{at};
ghost use Rattle.laws.specs.Chains.{Chainable, Unchained, Chained};

use network::chains::Chains;

// Each vertex's first half-line, and each half-line's next one at the same vertex; the number of ends where there is none.
pub(crate) fn chain(ends: &[u16], chains: &mut Chains<512, 4096>)
    requires chainable { Chainable 512 4096 (length ends.now) (at ends.now) }
    requires unchained { Unchained 512 4096 (length ends.now) chains.old.heads chains.old.nexts }
    ensures { Chained 512 4096 (length ends.now) (at ends.now) chains.new.heads chains.new.nexts }
{
    chains.by(ends.len(), |h| ends[h] as usize);
}
