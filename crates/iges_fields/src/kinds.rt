/// What a field is.
#[derive(Clone, Copy, Debug, PartialEq, Eq)]
pub enum FieldKind {
    /// Nothing, or blanks alone.
    Empty,
    /// An optional sign and one or more digits.
    Whole,
    /// A number with a point or an exponent.
    Real,
    /// Digits, `H`, and that many bytes.
    Text,
}

/// A field: its kind, and its content in the text that it was read from. Of a text, the bytes after
/// the `H`; of an empty field, none.
#[derive(Clone, Copy, Debug, PartialEq, Eq)]
pub struct Field<'a> {
    pub kind: FieldKind,
    pub text: &'a [u8],
}
