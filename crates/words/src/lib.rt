// Words: sets of labels 0 to 31, each kept in the bits of a 32-bit number.
// What a word means is in specs/Bits.antt, by the labels that it has. A word stays a plain number, and no type of its own, since charts
// answer it as one and lent sheets hold such numbers.
#![tactic(auto)]

ghost use Rattle.std.specs.Prelude.{◌≡◌, not, ◌&&◌, ◌||◌, nat_eq};
ghost use Rattle.words.specs.Bits.{bit, word_of, WordHasItsLabels, WordFits, NoLabelPast31, WordsAreTheirLabels};

// The label is in the word.
#[tactic(auto, using(crate::proofs::Bits::no_label_past_31, crate::proofs::Bits::words_are_their_labels), unfolding(crate::specs::Bits::bit))]
pub fn contains(word: u32, label: u8) -> bool
    ensures value { result ≡ bit word label }
    ensures no_label_past_31 { NoLabelPast31 }
    ensures words_are_their_labels { WordsAreTheirLabels }
{
    label < 32 && (word >> label) % 2 == 1
}

// The word with the one label, or the empty word where the label is past 31.
#[tactic(auto, using(crate::proofs::Bits::word_has_its_labels, crate::proofs::Bits::word_fits, crate::proofs::Bits::packed_none))]
pub fn singleton(label: u8) -> u32
    ensures value { result ≡ word_of (λ a. nat_eq a label) }
    ensures word_has_its_labels { WordHasItsLabels }
    ensures word_fits { WordFits }
{
    if label < 32 { 1 << label } else { 0 }
}

// The labels of either word.
pub fn union(v: u32, w: u32) -> u32
    ensures value { result ≡ word_of (λ a. bit v a || bit w a) }
{
    v | w
}

// The labels that both words have.
pub fn intersection(v: u32, w: u32) -> u32
    ensures value { result ≡ word_of (λ a. bit v a && bit w a) }
{
    v & w
}

// The labels 0 to 31 that the word lacks.
pub fn complement(w: u32) -> u32
    ensures value { result ≡ word_of (λ a. not (bit w a)) }
{
    !w
}
