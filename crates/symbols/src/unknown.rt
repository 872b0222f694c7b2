// What stands for nothing.

// A code or a character that stands for no road or symbol.
#[derive(Clone, Copy, PartialEq, Eq, Debug)]
pub struct Unknown<T>(pub T);
