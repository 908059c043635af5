ghost use Rattle.std.specs.Prelude.{◌≡◌};
ghost use Rattle.syntax.specs.Faults.{ground_number};
ghost use Rattle.syntax.specs.declared.fault.Ground.TheVariants.{NoToken, Value as Refused};

use faults::{Located, Numbered};
use lexer::{LexFault, Position};
use values::ValueFault;

// Why a text is refused.
#[derive(Clone, Copy, PartialEq, Eq, Debug)]
pub enum Ground {
    TextTooLong,
    // No token begins here, or a quoted text has a wrong byte or no end.
    NoToken,
    // The grammar allows no such token here, or no end.
    Unexpected,
    // A title, or a content, breaks its rule.
    Value(ValueFault),
    // The attribute is unknown for the kind, or given twice.
    Attribute,
    // The attribute has no such value.
    NotAllowed,
    // `ensure` is missing, or `content` is missing or misplaced.
    Incomplete,
    // The package is not in the index.
    NotInIndex,
    // Kind and title came before.
    Repeated,
    // One resource or edge more than there may be.
    TooMany,
    // A reference names no resource.
    NoResource,
    // The left end of `~>` is a service, or its right end is none.
    NoNotice,
}

// A ground, with the position of the refused part's first byte.
pub type TextFault = Located<Ground, Position>;

impl Numbered for Ground {
    ghost number_of = { ground_number };

    fn number(self) -> u8 {
        match self {
            Ground::TextTooLong => 11,
            Ground::NoToken => 12,
            Ground::Unexpected => 13,
            Ground::Value(ValueFault::Malformed) => 14,
            Ground::Attribute => 15,
            Ground::NotAllowed | Ground::Value(ValueFault::TooLong) => 16,
            Ground::Incomplete => 17,
            Ground::NotInIndex => 18,
            Ground::Repeated => 19,
            Ground::TooMany => 20,
            Ground::NoResource => 21,
            Ground::NoNotice => 22,
        }
    }
}

impl From<ValueFault> for Ground {
    ghost from_gives = { λ f g. g ≡ Refused f };

    fn from(fault: ValueFault) -> Ground {
        Ground::Value(fault)
    }
}

impl From<LexFault> for Ground {
    ghost from_gives = { λ _ g. g ≡ NoToken };

    fn from(_fault: LexFault) -> Ground {
        Self::NoToken
    }
}
