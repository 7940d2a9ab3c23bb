use hold_base::{List, Name};

/// A row of an interpretation: the value of an output of a type where its inputs, in the type's order, have these values.
#[derive(Clone, Debug, Drop)]
pub struct Row {
    pub kind: Name,
    pub output: Name,
    pub inputs: List<bool>,
    pub value: bool,
}
