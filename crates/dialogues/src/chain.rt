// Dialogues that go from each state to the next.
ghost use Rattle.std.specs.Prelude.{◌≡◌, IfOk};
ghost use Rattle.dialogues.specs.Chain.{chain_of, ChainsMoveToTheNext};

use charts::move_list::Move;
use std::alloc::{AllocError, Global};

// The moves of a chain of n states: each state but the last moves by the label to the next. It fails only for want of memory.
#[tactic(auto, using(crate::proofs::Chains::chains_move_to_the_next))]
pub fn chain(alloc: Global, n: usize, label: u8) -> Result<Vec<Move>, AllocError>
    ensures value { IfOk result (λ moves. moves.items ≡ chain_of n label) }
    ensures chains_move_to_the_next { ChainsMoveToTheNext }
{
    (1..n)
        .map(|i| Move {
            from: i - 1,
            label,
            to: i,
        })
        .collect(alloc)
}
