// The closure of a relation on states: which states are reached from a state by zero or more steps.
// What is reached is said in specs/Closure.antt, by paths and by a test.
#![tactic(auto)]

ghost use Rattle.std.specs.Prelude.{◌≡◌, ℕ, ◌<◌, ◌≤◌, min, Bool, true, false, ◌&&◌, ◌||◌, ◌↔◌, IsTrue, MatchOption, nat_lt, slice_index_or};
ghost use Rattle.closure.specs.Closure.{Reached, reaches, marks, ReachesBySteps};

// Only states below this number are walked.
const STATES: usize = 128;

// A mark for each state.
pub type Marks = [bool; 128];

// A relation on states that can be asked.
pub trait Steps {
    // There is a step from the first state to the second.
    ghost step: { Self → ℕ → ℕ → Bool };

    fn has_step(&self, p: usize, q: usize) -> bool
        ensures answers_the_step { result ≡ step self.now p q };
}

// A mark for each of 128 states: those that zero or more steps lead to from the start, through states below the count and 128.
#[tactic(auto, using(crate::proofs::Paths::reaches_decides, crate::proofs::Walk::fewer_left, crate::proofs::Walk::walk_decides, crate::proofs::Walk::walk_ends))]
pub fn reached_from<S: Steps>(steps: &S, count: usize, start: usize) -> Marks
    ensures value { result ≡ marks (reaches (min count 128) (S.step steps.now) start) }
    ensures marks_what_is_reached { (q : ℕ) → (IsTrue (slice_index_or result q false) ↔ Reached (min count 128) (S.step steps.now) start q) }
    ensures reaches_by_steps { ReachesBySteps }
{
    let n = count.min(STATES);
    // Two arrays of marks: what is seen is the answer, and one array of states of the walk would have to be copied into it at the end.
    let mut seen = [false; 128];
    let mut done = [false; 128];
    if start < n {
        seen[start] = true;
    }
    while let Some(p) = pending(&seen, &done) {
        done[p] = true;
        mark_targets(steps, n, p, &mut seen);
    }
    seen
}

// A state that is seen and not done, if there is one.
fn pending(seen: &Marks, done: &Marks) -> Option<usize>
    ensures cases { MatchOption result ((q : ℕ) → slice_index_or seen.now q false ≡ true → slice_index_or done.now q false ≡ true) (λ p. (p < 128) × (slice_index_or seen.now p false ≡ true) × (slice_index_or done.now p false ≡ false)) }
{
    seen.iter()
        .zip(done)
        .position(|(seen, done)| *seen && !*done)
}

// Marks the targets below n of the steps from p.
fn mark_targets<S: Steps>(steps: &S, n: usize, p: usize, seen: &mut Marks)
    requires { n ≤ 128 }
    ensures marked { (q : ℕ) → slice_index_or seen.new q false ≡ (slice_index_or seen.old q false || (nat_lt q n && S.step steps.now p q)) }
{
    for (q, mark) in seen[..n].iter_mut().enumerate() {
        if steps.has_step(p, q) {
            *mark = true;
        }
    }
}
