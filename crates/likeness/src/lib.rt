// Likeness: whether two states of a chart behave alike, to which depth they do, and how that is found out round by round.
//   moves    the move sheet of a chart
//   sheets   a filled move sheet beside a level sheet
//   attack   whether a pair of states has an attack under a sheet of levels
//   rounds   the rounds that give pairs their levels, and the call that settles a pair
//   refusal  what a refused call answers
#![tactic(auto)]

mod attack;
pub mod moves;
pub mod refusal;
pub mod rounds;
mod sheets;
