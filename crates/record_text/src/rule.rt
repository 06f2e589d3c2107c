// The rules of lines.

/// The rules that a line keeps after the lines before it, as far as a text alone can break them.
#[derive(Clone, Copy, Debug, PartialEq, Eq)]
pub enum Rule {
    Order,
    Session,
    Limit,
}
