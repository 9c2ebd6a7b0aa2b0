// The ranges of a line's numbers, which its types give.
ghost use Rattle.mg_model.specs.WellFormed.{IsInRange};

use mg_model::Line;

/// A line is in range. This does nothing when it runs.
pub(crate) fn keeps_ranges(line: Line)
    ensures { IsInRange line }
{}
