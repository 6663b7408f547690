//! The limits of the interface.
ghost use Rattle.cv_top.specs.Limits.{AreLimits};

/// The limits that the definitions name by constants are the interface's numbers.
pub(crate) fn limits_are()
    ensures { AreLimits }
{}
