//! The special characters that stand before symbols.

/// The special character that comes before the three bytes of a symbol.
#[derive(Clone, Copy, Debug, PartialEq, Eq)]
pub enum Delimiter {
    /// Start of control symbol, K28.0.
    Sc,
    /// Packet delimiter, K28.3.
    Pd,
}
