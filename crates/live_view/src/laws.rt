//! The laws of right views, as contracts of functions that do nothing.
ghost use Rattle.live_view.specs.Chart.{RightChartIsPart};
ghost use Rattle.live_view.specs.Views.{RightViewIsCanonical};

/// A view that is right over a start of canonical squares has the numbers of the canonical resolution.
pub fn right_view_is_canonical()
    ensures { RightViewIsCanonical }
{
    resolution_laws::canonical_start_is_canonical();
}

/// Each character of the chart of a view that is right for the canonical resolution is a space, or that of the
/// resolution's chart.
pub fn right_chart_is_part()
    ensures { RightChartIsPart }
{
    resolution_laws::start_table_is_unique();
}
