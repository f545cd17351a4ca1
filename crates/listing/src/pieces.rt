// What a page is made of. Each function puts a piece behind what the page has.
ghost use Rattle.std.specs.Prelude.{◌+◌, ◌*◌, ◌<◌, length};
ghost use Rattle.laws.specs.Lists.{at};
ghost use Rattle.network.specs.Numbers.{refusal_number};
ghost use Rattle.listing.specs.Page.{answer_line, counts_line, choice_line, size_line, step_line, ring_page};
ghost use Rattle.listing.specs.Inside.{BlankPage, RoomyPage, Puts, side_piece, has_side, Ringable};

use network::Refusal;
use side::Side;

// Room for the longest page: a first line, 64 choices of 2,048 back lines, and the last answer.
#[derive(Drop)]
pub(crate) struct Page {
    pub bytes: [u8; 262222],
    // How many there are. What stands behind them means nothing.
    pub count: usize,
}

impl Page {
    pub(crate) fn empty() -> Page
        ensures { BlankPage result }
    {
        Page {
            bytes: [0; 262222],
            count: 0,
        }
    }

    // A number of two digits, alone on its line.
    pub(crate) fn put_answer(&mut self, number: u8)
        requires { RoomyPage 3 self.old }
        ensures { Puts (answer_line number) self.old self.new }
    {
        digits::put_number(&mut self.bytes, self.count, 2, number as u16);
        self.bytes[self.count + 2] = b'\n';
        self.count += 3;
    }

    // The number of a refusal, in the same way.
    pub(crate) fn put_refusal(&mut self, refusal: Refusal)
        requires { RoomyPage 3 self.old }
        ensures { Puts (answer_line (refusal_number refusal)) self.old self.new }
    {
        self.put_answer(u8::from(refusal));
    }

    // The first line where there is a choice: the answer 0, the meshes, the back lines.
    pub(crate) fn put_counts(&mut self, meshes: usize, back: usize)
        requires roomy { RoomyPage 11 self.old }
        requires meshes_bound { meshes < 65536 }
        requires back_bound { back < 65536 }
        ensures { Puts (counts_line meshes back) self.old self.new }
    {
        digits::put_number(&mut self.bytes, self.count, 2, 0);
        digits::put_number(&mut self.bytes, self.count + 2, 4, meshes as u16);
        digits::put_number(&mut self.bytes, self.count + 6, 4, back as u16);
        self.bytes[self.count + 10] = b'\n';
        self.count += 11;
    }

    // The sides of a choice, line by line.
    pub(crate) fn put_choice(&mut self, choice: &[u8])
        requires { RoomyPage (2 * length choice.now + 1) self.old }
        ensures { Puts (choice_line (has_side choice.now) (length choice.now) (at choice.now)) self.old self.new }
    {
        for side in choice {
            self.put_side(*side);
        }
        self.bytes[self.count] = b'\n';
        self.count += 1;
    }

    // A side in two digits; nothing where there is none.
    fn put_side(&mut self, side: u8)
        requires { RoomyPage 2 self.old }
        ensures { Puts (side_piece side) self.old self.new }
    {
        if side == Side::TREE {
            return;
        }
        digits::put_number(&mut self.bytes, self.count, 2, side as u16);
        self.count += 2;
    }

    // The whole page of a ring: 7 and its length, then its steps.
    pub(crate) fn put_ring(&mut self, size: usize, lines: &[u16], kinds: &[u8])
        requires { Ringable size lines.now kinds.now self.old }
        ensures { Puts (ring_page size (at lines.now) (at kinds.now)) self.old self.new }
    {
        self.put_size(size);
        for (line, kind) in lines[..size].iter().zip(&kinds[..size]) {
            self.put_step(*line, *kind);
        }
    }

    // The first line of a ring: 7 and its length.
    fn put_size(&mut self, size: usize)
        requires roomy { RoomyPage 7 self.old }
        requires size_bound { size < 65536 }
        ensures { Puts (size_line size) self.old self.new }
    {
        digits::put_number(
            &mut self.bytes,
            self.count,
            2,
            u8::from(Refusal::Ringed(size)) as u16,
        );
        digits::put_number(&mut self.bytes, self.count + 2, 4, size as u16);
        self.bytes[self.count + 6] = b'\n';
        self.count += 7;
    }

    // A step of a ring: its line and its kind. (A byte: first choice writes kinds to a buffer that C lends.)
    fn put_step(&mut self, line: u16, kind: u8)
        requires { RoomyPage 7 self.old }
        ensures { Puts (step_line line kind) self.old self.new }
    {
        digits::put_number(&mut self.bytes, self.count, 4, line);
        digits::put_number(&mut self.bytes, self.count + 4, 2, kind as u16);
        self.bytes[self.count + 6] = b'\n';
        self.count += 7;
    }
}
