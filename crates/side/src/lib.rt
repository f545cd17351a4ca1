// The side of a back line, as a choice writes it: the one place where left and right are numbers.
//
// Follow a back line down, and then the tree path up to its start: this round trip turns anticlockwise where the line is left, clockwise where it is right.
#![tactic(auto)]

ghost use Rattle.std.specs.Prelude.{◌≡◌};
ghost use Rattle.side.specs.Sides.{opposite, Coded};

// Constants and no enum: the C interface; a choice that is lent may have any byte, and `opposite` (specs/Sides.antt) answers for each.
#[derive(Drop)]
pub struct Side {}

impl Side {
    pub const LEFT: u8 = 0;

    pub const RIGHT: u8 = 1;
    // What a choice writes where there is no side: at a tree line.
    pub const TREE: u8 = 2;

    // The other of the two sides.
    pub fn opposite(side: u8) -> u8
        ensures { result ≡ opposite side }
    {
        if side == Side::LEFT {
            return Side::RIGHT;
        }
        Side::LEFT
    }
}

// What a constraint asks of the sides of its two lines. As a byte it is the number that the rules give it, and a ring's kinds are written by.
#[derive(Clone, Copy, PartialEq, Eq)]
pub enum Wants {
    Same,
    Different,
}

impl From<Wants> for u8 {
    ghost from_gives = { Coded };

    fn from(wants: Wants) -> u8 {
        wants as u8
    }
}
