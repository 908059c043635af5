// Up to N bytes that keep a rule, held in place.
ghost use Rattle.std.specs.Prelude.{◌≡◌, ℕ, ◌≤◌, Bool, true, false, List, length, take, Some, IsSomeAnd, MatchResult, refl, ⊤};
ghost use Rattle.std.specs.Cmp.Lexicographic.{slice_cmp, on_texts};
ghost use Rattle.std.specs.Ordering.{nat_cmp};
ghost use Rattle.fs.specs.Tree.{same};
ghost use Rattle.values.specs.declared.fault.ValueFault.{ValueFault};
ghost use Rattle.values.specs.Order.{Ordered};
ghost use Rattle.values.specs.Comparing.{texts_per, texts_equiv, texts_order, texts_tie};

use crate::fault::ValueFault;
use std::alloc::AllocError;
use std::cmp::Ordering;
use std::marker::PhantomData;

// Which bytes a text may hold, and how others are refused.
pub trait Rule<const N: usize> {
    const REFUSAL: ValueFault;

    ghost REFUSAL: { ValueFault };

    ghost allowed: { List ℕ → Bool };

    fn allows(text: &[u8]) -> bool
        ensures { result ≡ allowed text.now };

    ghost fits: { (t : List ℕ) → allowed t ≡ true → length t ≤ N };
}

pub struct Text<R: Rule<N>, const N: usize> {
    bytes: [u8; N],
    len: usize,
    rule: PhantomData<R>,
    ghost fits: { len ≤ N },
    ghost ruled: { R.allowed (take len bytes) ≡ true },
}

impl<R: Rule<N>, const N: usize> Text<R, N> {
    ghost use Rattle.values.specs.Held.{held};

    pub fn as_bytes(&self) -> &[u8]
        ensures { result.now ≡ held self.now }
    {
        &self.bytes[..self.len]
    }

    // The text of bytes that keep the rule.
    pub(crate) fn new(text: &[u8]) -> Self
        requires { R.allowed text.now ≡ true }
        ensures { held result ≡ text.now }
    {
        let mut bytes = [0; N];
        bytes[..text.len()].copy_from_slice(text);
        Text {
            bytes,
            len: text.len(),
            rule: PhantomData,
        }
    }
}

// The text of these bytes, exactly where the rule allows them.
impl<R: Rule<N>, const N: usize> TryFrom<&[u8]> for Text<R, N> {
    ghost use Rattle.values.specs.Held.{held};

    type Error = ValueFault;

    ghost try_from_gives = { λ s r. MatchResult r (λ t. (R.allowed s.now ≡ true) × (held t ≡ s.now)) (λ f. (R.allowed s.now ≡ false) × (f ≡ R.REFUSAL)) };

    fn try_from(text: &[u8]) -> Result<Self, ValueFault>
        ensures { MatchResult result (λ t. (R.allowed text.now ≡ true) × (held t ≡ text.now)) (λ f. (R.allowed text.now ≡ false) × (f ≡ R.REFUSAL)) }
    {
        if R::allows(text) {
            Ok(Text::new(text))
        } else {
            Err(R::REFUSAL)
        }
    }
}

impl<R: Rule<N>, const N: usize> Clone for Text<R, N> {
    ghost is_clone = { λ x y. y ≡ x };

    ghost is_infallible = { λ _. ⊤ };

    fn clone(&self) -> Result<Self, AllocError> {
        Ok(Text {
            bytes: self.bytes,
            len: self.len,
            rule: PhantomData,
        })
    }
}

impl<R: Rule<N>, const N: usize> Copy for Text<R, N> {}

// By hand, since a derive would compare the unused bytes too.
impl<R: Rule<N>, const N: usize> PartialEq for Text<R, N> {
    ghost use Rattle.values.specs.Held.{held};

    ghost eq = { λ x y. same (held x) (held y) };

    ghost laws = { texts_per held };

    fn eq(&self, other: &Self) -> bool {
        self.as_bytes() == other.as_bytes()
    }
}

impl<R: Rule<N>, const N: usize> Eq for Text<R, N> {
    ghost use Rattle.values.specs.Held.{held};

    ghost laws = { texts_equiv held };
}

// The byte order.
impl<R: Rule<N>, const N: usize> PartialOrd for Text<R, N> {
    ghost use Rattle.values.specs.Held.{held};

    ghost partial_cmp = { λ x y. Some (slice_cmp nat_cmp (held x) (held y)) };

    ghost laws = { texts_order held };

    fn partial_cmp(&self, other: &Self) -> Option<Ordering>
        ensures value { result ≡ Some (slice_cmp nat_cmp (held self.now) (held other.now)) }
        ensures ordered { IsSomeAnd result (Ordered (held self.now) (held other.now)) }
    {
        Some(self.cmp(other))
    }
}

impl<R: Rule<N>, const N: usize> Ord for Text<R, N> {
    ghost use Rattle.values.specs.Held.{held};

    ghost cmp = { λ x y. slice_cmp nat_cmp (held x) (held y) };

    ghost total = { on_texts held };

    ghost matches_partial_cmp = { λ x y. refl };

    ghost matches_eq = { texts_tie held };

    fn cmp(&self, other: &Self) -> Ordering
        ensures value { result ≡ slice_cmp nat_cmp (held self.now) (held other.now) }
        ensures ordered { Ordered (held self.now) (held other.now) result }
    {
        self.as_bytes().cmp(&other.as_bytes())
    }
}
