ghost use Rattle.std.specs.Prelude.{◌≡◌};

use crate::numbered::Numbered;

// Why something is refused, with the place of the refused part.
#[derive(Clone, Copy, PartialEq, Eq, Debug)]
pub struct Located<G, P> {
    pub ground: G,
    pub at: P,
}

impl<G: Numbered, P: Drop> Numbered for Located<G, P> {
    ghost number_of = { λ f. G.number_of f.ground };

    fn number(self) -> u8 {
        self.ground.number()
    }
}
