// The two forms of a signature block.

/// How signature blocks spell their keys and signatures.
#[derive(Clone, Copy, Debug, PartialEq, Eq)]
pub enum Form {
    /// Keys and signatures on a curve, of fixed lengths.
    One,
    /// Keys and signatures that state their lengths. The scheme's number is the curve's.
    Two,
}
