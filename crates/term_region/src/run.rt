/// Where the list at a slot stands in a pool, and the place of its entry in the order. A run that is not live is free.
#[derive(Clone, Copy, Debug)]
pub struct Run {
    pub live: bool,
    pub start: usize,
    pub len: usize,
    pub rank: usize,
}
