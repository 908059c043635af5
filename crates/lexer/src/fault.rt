ghost use Rattle.std.specs.Prelude.{◌≡◌};
ghost use Rattle.lexer.specs.Faults.{lex_fault_number};

use crate::position::Position;
use faults::{Located, Numbered};

// No token begins at this position, or a quoted text has a wrong byte there or no end from there on.
#[derive(Clone, Copy, PartialEq, Eq, Debug)]
pub struct LexFault {
    pub at: Position,
}

impl Numbered for LexFault {
    ghost number_of = { lex_fault_number };

    fn number(self) -> u8 {
        12
    }
}

// The fault's own position is that of the refusal, whatever its ground.
impl<G: From<LexFault>> From<LexFault> for Located<G, Position> {
    ghost from_gives = { λ f l. G.from_gives f l.ground × (l.at ≡ f.at) };

    fn from(fault: LexFault) -> Located<G, Position> {
        Located {
            ground: G::from(fault),
            at: fault.at,
        }
    }
}
