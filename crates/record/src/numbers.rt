// Iterators over the numbers of a list: each number is two bytes, low byte first.
ghost use Rattle.std.specs.Iterator.{YieldsFirst, item_count};
ghost use Rattle.record.specs.Numbers.{numbers_left, pairs_left};

// The numbers in bytes that are left. A byte alone at the end is none.
#[derive(Clone, Copy)]
pub struct Numbers<'a> {
    pub bytes: &'a [u8],
}

impl Iterator for Numbers<'_> {
    type Item = usize;

    ghost next_gives = { YieldsFirst numbers_left };

    ghost remaining = { item_count numbers_left };

    // The next number, or None where fewer than two bytes are left.
    fn next(&mut self) -> Option<usize> {
        match self.bytes {
            [low, high, others @ ..] => {
                self.bytes = others;
                Some(usize::from(u16::from_le_bytes([*low, *high])))
            }
            _ => None,
        }
    }
}

// The pairs of numbers in bytes that are left, as a name with its sort. Fewer than four bytes at the end are none.
#[derive(Clone, Copy)]
pub struct Pairs<'a> {
    pub bytes: &'a [u8],
}

impl Iterator for Pairs<'_> {
    type Item = (usize, usize);

    ghost next_gives = { YieldsFirst pairs_left };

    ghost remaining = { item_count pairs_left };

    // The next pair, or None where fewer than four bytes are left.
    fn next(&mut self) -> Option<(usize, usize)> {
        match self.bytes {
            [a, b, c, d, others @ ..] => {
                self.bytes = others;
                let first = usize::from(u16::from_le_bytes([*a, *b]));
                let second = usize::from(u16::from_le_bytes([*c, *d]));
                Some((first, second))
            }
            _ => None,
        }
    }
}
