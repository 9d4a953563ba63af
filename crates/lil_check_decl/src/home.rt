use lil_declared::Mode;

/// Where variables are declared: the number of their block, its level, the procedure to which they belong, if it isn't the
/// module, and whether they are parameters.
#[derive(Clone, Copy)]
pub struct Home {
    pub block: usize,
    pub level: usize,
    pub owner: Option<usize>,
    pub mode: Mode,
}
