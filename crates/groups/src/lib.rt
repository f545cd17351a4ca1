// Groups of back lines under constraints: each constraint joins the groups of its two lines, agrees with what is there, or shows a conflict.
//
// While constraints are taken in, each line points to a lower one of its group, or leads. Its contracts cite specs/Groups.antt and, for what is
// between these functions alone, specs/Calls.antt.
#![tactic(auto)]

pub mod choice; // the first choice, the next choice, the test of a choice

ghost use Rattle.std.specs.Prelude.{◌≡◌, ◌+◌, ◌%◌, ◌≤◌, ◌<◌, replicate};
ghost use Rattle.groups.specs.Pointers.{Long, PointsDown, OwnSide, BaseParity};

use network::Kind;
use side::{Side, Wants};

// The groups of the back lines (`columns` and `pointed`, specs/Groups.antt), an array for each column: the first choice is copied from one as it stands. Of
// each line:
#[derive(Drop)]
pub struct Groups {
    // The line that leads its group; while constraints are taken in, that line or one on the way to it.
    pub leader: [u16; 2048],
    // 1 where it is on the other side of that line, 0 where on the same; at a tree line 2.
    pub parity: [u8; 2048],
    // The two lines of the constraint that joined the group it led to another; the line itself where there is none.
    pub from: [u16; 2048],
    pub to: [u16; 2048],
    // No place is missing, no pointer leads up, and a line that points to itself lies on its own side.
    pub ghost long: { Long leader parity from to },
    pub ghost down: { PointsDown leader },
    pub ghost own: { OwnSide leader parity },
}

// What taking in a constraint came to. (An enum of its own: three cases without values, of each of which `Replied` promises something else.)
#[derive(Drop)]
pub enum Joining {
    // Its lines were in one group, as it wants them.
    Agrees,
    // Its lines were in one group, and not as it wants them.
    Conflicts,
    // Its lines were in two groups, which are one now.
    Joins,
}

// A leader, and a line's turn against it.
#[derive(Drop)]
struct Lead {
    line: usize,
    turn: u8,
}

impl Groups {
    ghost use Rattle.groups.specs.Calls.{Started, Joinable, Passable, PassedBy, LookedUp, Mergeable, GivenOver, Replied, Flattened};

    // A table of zeros: each line points to line 0.
    pub fn blank() -> Groups
        ensures leaders { result.leader ≡ replicate 2048 0 }
        ensures parities { result.parity ≡ replicate 2048 0 }
        ensures joinings { (result.from ≡ replicate 2048 0) × (result.to ≡ replicate 2048 0) }
    {
        Groups {
            leader: [0; 2048],
            parity: [0; 2048],
            from: [0; 2048],
            to: [0; 2048],
        }
    }

    // Each line leads itself. `kinds` has 1 at back lines and another byte at the others, whose parity is 2.
    pub fn start(&mut self, lines: usize, kinds: &[u8; 2048])
        requires { lines ≤ 2048 }
        ensures { Started lines kinds.now self.new }
    {
        for b in 0..lines {
            let own = b as u16;
            self.leader[b] = own;
            self.parity[b] = alone(kinds[b]);
            self.from[b] = own;
            self.to[b] = own;
        }
    }

    // Takes in the constraint between the back lines b and d. (Its kind is a number, since `Replied` promises something of any number.)
    pub fn join(&mut self, b: usize, d: usize, kind: u8) -> Joining
        requires { Joinable b d }
        ensures { Replied b d kind self.old self.new result }
    {
        let one = self.look_up(b);
        let two = self.look_up(d);
        let turn = odd(one.turn, two.turn, kind);
        if one.line == two.line {
            if turn == 0 {
                return Joining::Agrees;
            }
            return Joining::Conflicts;
        }
        let low = one.line.min(two.line);
        let high = one.line.max(two.line);
        self.point(low, high, turn, b, d);
        Joining::Joins
    }

    // When all constraints are taken in: each line points to its leader, and its parity is against that one.
    pub fn flatten(&mut self, lines: usize)
        requires { lines ≤ 2048 }
        ensures { Flattened lines self.old self.new }
    {
        for b in 0..lines {
            let l = self.leader[b] as usize;
            if l != b {
                self.pass(b, l);
            }
        }
    }

    // Looks up the leader of b. On the way every second line is pointed past the one that it leads to, so that the next look has half the way.
    fn look_up(&mut self, b: usize) -> Lead
        requires { b < 2048 }
        ensures { LookedUp b self.old self.new result.line result.turn }
    {
        let mut x = b;
        let mut turn = 0;
        let mut y = self.leader[x] as usize;
        while y != x {
            self.pass(x, y);
            turn = odd(turn, self.parity[x], Wants::Same as u8);
            x = self.leader[x] as usize;
            y = self.leader[x] as usize;
        }
        Lead { line: x, turn }
    }

    // Points x, which points to y, to where y points, with the turns added.
    fn pass(&mut self, x: usize, y: usize)
        requires { Passable x y self.old }
        ensures { PassedBy x y self.old self.new }
    {
        self.leader[x] = self.leader[y];
        self.parity[x] = odd(self.parity[x], self.parity[y], Wants::Same as u8);
    }

    // Gives the group of `high` to `low` by the constraint between b and d, which is noted.
    fn point(&mut self, low: usize, high: usize, turn: u8, b: usize, d: usize)
        requires { Mergeable low high b d self.old }
        ensures { GivenOver low high turn b d self.old self.new }
    {
        self.leader[high] = low as u16;
        self.parity[high] = turn;
        self.from[high] = b as u16;
        self.to[high] = d as u16;
    }
}

// 1 where the sum is odd, 0 where it is even.
fn odd(x: u8, y: u8, kind: u8) -> u8
    ensures { result ≡ (x + y + kind) % 2 }
{
    ((x as u16 + y as u16 + kind as u16) % 2) as u8
}

// The parity of a line by itself. (Its kind is a byte: the table of kinds is what orient copies for C.)
fn alone(kind: u8) -> u8
    ensures { BaseParity kind result }
{
    if kind == Kind::BACK {
        return Side::LEFT;
    }
    Side::TREE
}
