/// How a program is run.
#[derive(Clone, Copy, PartialEq, Eq)]
pub struct Options {
    /// The most instructions that it may take.
    pub steps: u64,
    /// Whether the report says how many it took.
    pub count: bool,
    /// Whether the screen is a grid of rows that is written at the end.
    pub screen: bool,
}
