// What is told of a list and its check.
ghost use Rattle.std.specs.Prelude.{Some};
ghost use Rattle.charts.specs.MoveList.{faulty};
ghost use Rattle.dialogues.specs.Checked.{size_line, verdict_text, text_of};

use charts::move_list::MoveList;
use std::fmt;

// A list with a title, shown by its size and, on the next line, what becomes of it when it is checked.
#[derive(Clone, Copy)]
pub struct Checked<'a> {
    pub title: &'a str,
    pub list: MoveList<'a>,
}

// The line on the size of a checked list alone.
#[derive(Clone, Copy)]
pub struct Size<'a>(pub Checked<'a>);

// The line on what becomes of a list alone.
#[derive(Clone, Copy)]
pub struct Verdict<'a>(pub MoveList<'a>);

impl fmt::Display for Size<'_> {
    ghost output = { λ size. Some (size_line size.0) };

    fn fmt<W: fmt::Write>(&self, f: &mut fmt::Formatter<W>) -> fmt::Result {
        let title = self.0.title;
        let count = self.0.list.count;
        let listed = self.0.list.moves.len();
        write!(f, "{title}: a list of {count} states and {listed} moves.")
    }
}

impl fmt::Display for Verdict<'_> {
    ghost output = { λ verdict. Some (verdict_text (faulty verdict.0.count verdict.0.moves.now)) };

    fn fmt<W: fmt::Write>(&self, f: &mut fmt::Formatter<W>) -> fmt::Result {
        match self.0.check() {
            Ok(()) => write!(f, "  The list is accepted."),
            Err(refusal) => write!(f, "  The list is {refusal}."),
        }
    }
}

impl fmt::Display for Checked<'_> {
    ghost output = { λ checked. Some (text_of checked) };

    fn fmt<W: fmt::Write>(&self, f: &mut fmt::Formatter<W>) -> fmt::Result {
        writeln!(f, "{}", Size(*self))?;
        write!(f, "{}", Verdict(self.list))
    }
}
