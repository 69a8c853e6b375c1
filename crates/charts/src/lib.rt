// Charts: what a chart is and how it is asked, the search for the first equal record, move lists and their charts.
//   chart      the interface of two questions, and a lent chart
//   same       records with a sameness, and the first of a slice that is the same as a given one
//   move_list  moves, lists of moves, their check and their charts
//   refusal    what a refused call answers
#![tactic(auto)]

pub mod chart;
pub mod move_list;
pub mod refusal;
pub mod same;
