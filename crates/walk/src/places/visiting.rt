// How places are visited one by one, and how far a walk has come in them.
ghost use Rattle.std.specs.Iterator.{at_most};
ghost use Rattle.std.specs.Prelude.{◌≡◌};
ghost use Rattle.walk.specs.Parts.{next};
ghost use Rattle.walk.specs.Places.{GivesPlace};
ghost use Rattle.walk.specs.Walk.{taken};

use super::Places;

impl Iterator for Places {
    type Item = usize;

    ghost next_gives = { GivesPlace };

    ghost remaining = { λ p. at_most p.count };

    fn next(&mut self) -> Option<usize> {
        let Places { up, first, count } = *self;
        if count == 0 {
            return None;
        }
        let count = count - 1;
        if up {
            let left = first + 1;
            *self = Places {
                up,
                first: left,
                count,
            };
            Some(first)
        } else {
            *self = Places { up, first, count };
            Some(first + count)
        }
    }
}

impl Places {
    /// Where the walk stands: at the edge of the places from which it comes.
    pub fn edge(self) -> usize
        ensures { result ≡ next self.up self.first self.count }
    {
        if self.up {
            self.first
        } else {
            self.first + self.count
        }
    }

    /// How many places lie between the edge and a cut.
    pub fn up_to(self, cut: usize) -> usize
        ensures { result ≡ taken self.up self.first self.count cut }
    {
        if self.up {
            cut.saturating_sub(self.first)
        } else {
            self.edge().saturating_sub(cut)
        }
    }
}
