// What is told of a list in which two keys stand at one position.

// Two keys of a section, or two reserved buckets, stand at one position.
#[derive(Clone, Copy, PartialEq, Eq, Debug, Drop)]
pub struct Twice;
