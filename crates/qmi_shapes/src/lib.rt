//! Shapes of the values that QMI messages carry.
#![tactic(auto)]

mod shape;

pub use shape::{Prefix, Shape, ShapeField, ShapeFields};
