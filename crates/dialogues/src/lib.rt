// What the programs that tell dialogues share.
//   act      what the labels of the station's dialogues stand for, and a move told by an act
//   chain    dialogues that go from each state to the next
//   checked  what is told of a list and its check
#![tactic(auto)]

pub mod act;
pub mod chain;
pub mod checked;
