// Layers: charts made of a chart.
//   hide   labels of a set made silent
//   quiet  silent moves taken together
//   sheet  the chart of a lent sheet of words, and the sheets that a quiet chart is made of
#![tactic(auto)]

pub mod hide;
pub mod quiet;
pub mod sheet;

// The word of the silent label alone.
const SILENT: u32 = 1;
