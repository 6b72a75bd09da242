//! Laws of calls that are lost, each the contract of a function that does nothing.
ghost use Rattle.cod_turns.specs.Losses.{FewFailsLoseNothing, IsLostExactly, NeverLost, NoFaultsWhereNoneMay};

/// A call is lost exactly where more columns are down than there are parity columns.
pub fn lost_exactly()
    ensures { IsLostExactly }
{}

/// Where columns go down on few nodes, no call is lost.
pub fn never_lost()
    ensures { NeverLost }
{}

/// Where the shelf may fail on no node, no region of a history failed.
pub fn no_faults_where_none_may()
    ensures { NoFaultsWhereNoneMay }
{}

/// Where few nodes fail and no region does, no call of a history is lost.
pub fn few_fails_lose_nothing()
    ensures { FewFailsLoseNothing }
{}
