use crate::fault::TextFault;
use faults::ReadError;

// Why no manifest is read.
pub type TextError = ReadError<TextFault>;
