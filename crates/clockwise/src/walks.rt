// The walk up the tree that takes the lines of each fan in their order, and so discovers the back lines.
ghost use Rattle.std.specs.Prelude.{◌≡◌, ◌+◌, ◌*◌};
ghost use Rattle.laws.specs.Lists.{at};
ghost use Rattle.fans.specs.Chains.{hung};
ghost use Rattle.clockwise.specs.Walks.{SomeWalk, EachWalk, Collectable, SettingOut, WalkedBack};

use fans::chains::Chains;
use fork::Forks;
use network::named;

// Walks up from v, which stands at the height. Each back line goes to the front of its group when it is discovered. `path` has the vertices on the way to
// v, each at the place of the height below it.
pub(crate) fn walk(
    v: usize,
    height: usize,
    forks: &Forks,
    uppers: &[u16; 2048],
    choice: &[u8],
    fans: &Chains,
    path: &mut [u16; 512],
    groups: &mut Chains,
)
    requires { SomeWalk (λ S found. SettingOut S found v height forks.now uppers.now choice.now fans.now path.old groups.old) }
    ensures { EachWalk (λ S found. SettingOut S found v height forks.now uppers.now choice.now fans.now
        path.old groups.old)
        (λ S found. WalkedBack S found v height choice.now path.old path.new groups.new) }
{
    let mut next = fans.first(v);
    while let Some(e) = next {
        next = fans.after(e);
        if let Some(w) = named(uppers[e]) {
            path[height] = w as u16;
            walk(w, height + 1, forks, uppers, choice, fans, path, groups);
        } else {
            collect(e, forks, choice, path, groups);
        }
    }
}

// A back line's group: by its side, and by the vertex on the path above the height at which it ends.
fn collect(e: usize, forks: &Forks, choice: &[u8], path: &[u16; 512], groups: &mut Chains)
    requires { Collectable e forks.now choice.now path.now }
    ensures { groups.new ≡
        hung e (2 * at path.now (at forks.now.stop e) + at choice.now e) groups.old }
{
    let stem = path[forks.stop[e] as usize] as usize;
    groups.hang(e, 2 * stem + choice[e] as usize);
}
