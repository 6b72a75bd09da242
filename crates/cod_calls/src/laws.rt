//! Laws. These functions do nothing: their clauses say what holds.
ghost use Rattle.cod_pass.specs.Places.{NamesTell};

/// The name of a segment tells where it is.
pub fn names_tell()
    ensures { NamesTell }
{}
