// The numbers of a line, in the order in which they are read: as many are kept as a line keeps, and what follows is
// dropped.
ghost use Rattle.std.specs.Prelude.{◌≡◌, [], length};
ghost use Rattle.text_protocol.specs.Line.{more};

use std::marker::Model;
use text_protocol::KEPT;

#[derive(Drop)]
pub struct Numbers {
    kept: [i64; KEPT],
    count: usize,
}

impl Model for Numbers {
    ghost use Rattle.std.specs.Prelude.{List, ℤ, ◌≤◌, take};
    ghost use Rattle.text_protocol.specs.Line.{kept_most};

    ghost Value = { List ℤ };

    ghost view = { λ n. take n.count n.kept };

    ghost invariant = { λ n. n.count ≤ kept_most };
}

impl Numbers {
    // No number.
    pub fn none() -> Numbers
        ensures { result ≡ [] }
    {
        Numbers {
            kept: [0; KEPT],
            count: 0,
        }
    }

    pub fn clear(&mut self)
        ensures { self.new ≡ [] }
    {
        self.count = 0;
    }

    // How many there are.
    pub fn count(&self) -> usize
        ensures { result ≡ length self.now }
    {
        self.as_slice().len()
    }

    // A number more, kept where there is room for it.
    pub fn keep(&mut self, z: i64)
        ensures { self.new ≡ more self.old z }
    {
        if self.count < KEPT {
            self.kept[self.count] = z;
            self.count += 1;
        }
    }

    pub fn as_slice(&self) -> &[i64]
        ensures { result.now ≡ self.now }
    {
        &self.kept[..self.count]
    }
}
