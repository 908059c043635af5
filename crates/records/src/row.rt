// A row of records: the body's length and the kind, two bytes each, the low one first, then the body.
ghost use Rattle.std.specs.Prelude.{◌≡◌, ◌-◌, length, drop};
ghost use Rattle.records.specs.Rows.{word};
ghost use Rattle.records.specs.Heads.{Reads};

use crate::fault::{Ground, IndexFault};
use faults::Numbered;

// The bytes before a body.
const LEAD: usize = 4;

#[derive(Clone, Copy)]
pub struct Record<'a> {
    // Its first byte.
    pub place: usize,
    pub kind: u16,
    pub body: &'a [u8],
    // The byte past it.
    pub next: usize,
}

// A number of two bytes, the low one first.
fn word(low: u8, high: u8) -> u16
    ensures { result ≡ word low high }
{
    u16::from_le_bytes([low, high])
}

// The bytes from a place on; none where that is past the end.
fn bytes_from(bytes: &[u8], place: usize) -> &[u8]
    ensures { result.now ≡ drop place bytes.now }
{
    bytes.get(place..).unwrap_or(&[])
}

// The record whose first byte is at `place`; none at the end.
#[tactic(auto, using(crate::proofs::Rows::row_end, crate::proofs::Rows::row_short, crate::proofs::Rows::row_past))]
pub fn record_at<'a>(bytes: &'a [u8], place: usize) -> Result<Option<Record<'a>>, IndexFault>
    ensures { Reads bytes.now place result }
{
    let past = Ground::PastEnd.at(place);
    match bytes_from(bytes, place) {
        [] => Ok(None),
        [a, b, c, d, rest @ ..] => {
            let size = word(*a, *b) as usize;
            let kind = word(*c, *d);
            let Some(body) = rest.get(..size) else {
                return Err(past);
            };
            let next = place + LEAD + size;
            Ok(Some(Record {
                place,
                kind,
                body,
                next,
            }))
        }
        _ => Err(past),
    }
}
