//! Laws about woken goroutines, codes of words, bytes of marks, and the undo.

ghost use Rattle.std.specs.Prelude.{◌≡◌, ◌<◌, ℕ, Some};
ghost use Rattle.nr_rev.specs.Sides.{of_side};
ghost use Rattle.nr_rev.specs.declared.descriptor.Descriptor.{Descriptor};
ghost use Rattle.nr_rev.specs.declared.descriptor.WaitWord.{WaitWord};
ghost use Rattle.nr_rev.specs.declared.descriptor.WaitWord.TheVariants.{Held};
ghost use Rattle.nr_rev.specs.declared.sides.Side.{Side};
ghost use Rattle.nr_desc.specs.Auxiliary.Code.{code_of, wait_word_of};
ghost use Rattle.nr_desc.specs.Marks.{DescMarks, marks_of, marks_number};
ghost use Rattle.nr_desc.specs.Auxiliary.Op.{StepTo};
ghost use Rattle.nr_desc.specs.declared.op.DescAnswer.{DescAnswer};
ghost use Rattle.nr_desc.specs.declared.op.DescOp.{DescOp};
ghost use Rattle.nr_desc.specs.declared.reversible.DescDelta.{DescDelta};
ghost use Rattle.nr_desc.specs.declared.reversible.TheConstants.{MOST_WORDS};

/// A goroutine that is woken at a side was held by that side's word.
pub fn the_woken_were_held()
    ensures { (old new : Descriptor) (op : DescOp) (answer : DescAnswer) (side : Side) (g : ℕ)
        → StepTo old op answer new → of_side side answer.woken ≡ Some g
        → of_side side old.words ≡ Held g }
{}

/// Each number is the code of exactly one word, and each word has exactly one code. Likewise, each
/// byte below 16 encodes exactly one combination of marks, and each combination has exactly one
/// such byte.
pub fn numbers_are_words_and_marks()
    ensures code { (n : ℕ) → code_of (wait_word_of n) ≡ n }
    ensures word { (word : WaitWord) → wait_word_of (code_of word) ≡ word }
    ensures byte { (n : ℕ) → n < 16 → marks_number (marks_of n) ≡ n }
    ensures marks { (marks : DescMarks) → marks_of (marks_number marks) ≡ marks }
    ensures small { (marks : DescMarks) → marks_number marks < 16 }
{}

/// A delta consists of the previous descriptor and nothing else: nine words.
pub fn delta_is_its_descriptor()
    ensures descriptor { (delta : DescDelta) → delta ≡ record { before = delta.before } }
    ensures words { MOST_WORDS ≡ 9 }
{}
