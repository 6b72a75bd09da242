//! What a write means for the value that a column stands for. These functions do nothing: their clauses are laws.
ghost use Rattle.cod_data.specs.Values.{ApplyKeepsValue, HoldsValue, OneValue};

/// A write leaves the value, where the new bytes are the value's with what is kept from then on.
pub fn apply_keeps_value()
    ensures { ApplyKeepsValue }
{}

/// A column that holds a value's bytes stands for it, with nothing kept.
pub fn holds_value()
    ensures { HoldsValue }
{}

/// A column has one value.
pub fn one_value()
    ensures { OneValue }
{}
