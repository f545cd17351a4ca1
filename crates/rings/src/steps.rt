// Half-steps. A joining, a constraint that joined two groups, can be gone along in both directions: half-step 2e goes from the first line of joining e to
// its second, half-step 2e + 1 back. Where the two lines are one, there is no joining, and the half-steps lead nowhere new.
//
// The half-steps that leave one line are a chain, so that a walk along it meets all of them and no other. Its contracts cite specs/Flooding.antt.
ghost use Rattle.std.specs.Prelude.{cond, eqb, ◌≡◌, ◌*◌, ◌/◌, ◌%◌, ◌<◌};
ghost use Rattle.laws.specs.Lists.{at};
ghost use Rattle.laws.specs.Chains.{Unchained, Chained};
ghost use Rattle.rings.specs.Flooding.{leaves, arrives, WithinLines};

use groups::Groups;
use network::chains::Chains;

// The line that a half-step leaves.
fn near_end(s: usize, groups: &Groups) -> usize
    requires { s < 4096 }
    ensures { (result ≡ leaves groups.now s) × (result < 65536) }
{
    end(s, &groups.from, &groups.to)
}

// The line that it leads to.
pub(crate) fn far_end(s: usize, groups: &Groups) -> usize
    requires { s < 4096 }
    ensures { (result ≡ arrives groups.now s) × (result < 65536) }
{
    end(s, &groups.to, &groups.from)
}

// The line that one column has for a half-step's joining where it goes forth, or the other where it goes back.
fn end(s: usize, forth: &[u16; 2048], back: &[u16; 2048]) -> usize
    requires { s < 4096 }
    ensures { (result ≡ cond (eqb (s % 2) 0) (at forth.now (s / 2)) (at back.now (s / 2))) × (result < 65536) }
{
    let column = if s % 2 == 0 { forth } else { back };
    column[s / 2] as usize
}

// Each line's first half-step, and each half-step's next one at the same line; twice the number of lines where there is none.
pub(crate) fn link_all(lines: usize, groups: &Groups, chains: &mut Chains<2048, 4096>)
    requires within { WithinLines lines groups.now }
    requires unchained { Unchained 2048 4096 (2 * lines) chains.old.heads chains.old.nexts }
    ensures { Chained 2048 4096 (2 * lines) (leaves groups.now) chains.new.heads chains.new.nexts }
{
    chains.by(2 * lines, |s| near_end(s, groups));
}
