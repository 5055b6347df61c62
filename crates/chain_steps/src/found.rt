use board::Front;

/// A front that a member found on the board, and hasn't gone on with yet.
#[derive(Drop)]
pub enum Found {
    /// The tail raised it.
    Raised(Front),
    /// A member looked it up.
    Looked(Front),
}
