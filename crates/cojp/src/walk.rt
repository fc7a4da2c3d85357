// The labels of a map.

// How a label stands to what was read before it.
#[derive(Clone, Copy)]
pub enum LabelStatus {
    Unknown,
    First,
    Repeated,
}
