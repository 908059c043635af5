ghost use Rattle.std.specs.Prelude.{◌≡◌, ℕ};
ghost use Rattle.faults.specs.Faults.{fault_at};

use crate::located::Located;

// A refusal that is known by a number.
pub trait Numbered: Sized {
    ghost number_of: { Self → ℕ };

    fn number(self) -> u8
        ensures { result ≡ number_of self };

    // The same, of the part at a place.
    final fn at<P>(self, place: P) -> Located<Self, P>
        ensures { result ≡ fault_at place self }
    {
        Located {
            ground: self,
            at: place,
        }
    }
}
