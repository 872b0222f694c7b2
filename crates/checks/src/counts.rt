// The numbers of a map.
#[derive(Clone, Copy)]
pub struct Counts {
    pub vertices: u32,
    pub streets: u32,
    pub loops: u32,
}
