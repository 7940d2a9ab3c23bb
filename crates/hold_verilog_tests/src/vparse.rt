//! What texts are answered, each by hand from the rules of the language that is read.

mod answer;
mod bits;
mod double_names;
mod forms;
mod limits;
mod long_bounds;
mod nets;
mod parts;
mod ports;
