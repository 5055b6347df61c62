//! What an end knows of its link. It stands in contracts alone: no value of it is made.
use std::collections::LinkedList;

/// What a pass may do, and what it knows: all that it put, all that it took, and what it saw to
/// come, which lies foremost in the link.
pub struct View<T> {
    pub puts: bool,
    pub takes: bool,
    pub put: LinkedList<T>,
    pub taken: LinkedList<T>,
    pub coming: LinkedList<T>,
}
