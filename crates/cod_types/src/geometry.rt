//! The fields of a geometry, by name.
use thiserror::Error;

/// A field of a geometry.
#[derive(Clone, Copy, Debug, PartialEq, Eq)]
pub enum Field {
    N,
    K,
    Block,
    Update,
    Reserve,
    Unit,
    Alpha,
}

/// The first field that is outside its limits, in the order of `Field`.
#[derive(Clone, Copy, Debug, PartialEq, Eq, Error)]
#[error("a field of the geometry is outside its limits")]
pub struct BadGeometry(pub Field);
