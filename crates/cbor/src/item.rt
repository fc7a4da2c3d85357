// What is answered of data items; the functions that pass over them stand in `crate::scan`.

// The head of a payload's map: how many pairs it has, and where the first begins.
#[derive(Clone, Copy)]
pub struct MapHead {
    pub count: u64,
    pub start: usize,
}
