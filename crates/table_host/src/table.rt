use crate::record::Record;

pub mod methods;

// The records: the first `used` are nodes, and those behind them are free, each left by a removal.
// They stay in the same `Vec`, since a record that a removal frees is the next creation's.
// It keeps no rule of its own, so that a record can be altered while the host's rule is not yet restored.
#[derive(Drop)]
pub struct Table {
    pub records: Vec<Record>,
    pub used: usize,
}
