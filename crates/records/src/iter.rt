ghost use Rattle.std.specs.Prelude.{◌≡◌, ◌-◌, length};
ghost use Rattle.std.specs.Iterator.{at_most};
ghost use Rattle.records.specs.Rows.{row_from};
ghost use Rattle.records.specs.Lefts.{row_left, Gives};

use crate::fault::IndexFault;
use crate::row::{Record, record_at};

// The records of these bytes from a place on, in order; none behind one that is refused.
#[derive(Drop)]
pub struct Records<'a> {
    bytes: &'a [u8],
    place: usize,
}

impl<'a> Records<'a> {
    pub fn new(bytes: &'a [u8]) -> Records<'a>
        ensures { row_left result ≡ row_from bytes.now 0 }
    {
        Records { bytes, place: 0 }
    }
}

impl<'a> Iterator for Records<'a> {
    type Item = Result<Record<'a>, IndexFault>;

    ghost next_gives = { Gives };

    ghost remaining = { λ s. at_most (length s.bytes.now - s.place) };

    fn next(&mut self) -> Option<Result<Record<'a>, IndexFault>> {
        match record_at(self.bytes, self.place) {
            Ok(None) => None,
            Ok(Some(record)) => {
                self.place = record.next;
                Some(Ok(record))
            }
            Err(fault) => {
                self.place = self.bytes.len();
                Some(Err(fault))
            }
        }
    }
}
