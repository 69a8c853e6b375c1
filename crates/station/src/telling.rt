// Prints lists and charts.
use charts::chart::Chart;
use charts::move_list::MoveList;
use dialogues::act::Act;
use dialogues::checked::{Checked, Size, Verdict};
use layers::hide::Hide;
use layers::quiet::Quiet;
use std::alloc::Global;
use std::io;
use words::{contains, singleton};

// Prints the move from p to q by a label, named by its act.
fn print_move(rt: &impl Print, p: usize, label: u8, q: usize) -> io::Result<()> {
    match Act::try_from(label) {
        Ok(act) => println!(rt; "    {p} --{act}--> {q}"),
        Err(_) => println!(rt; "    {p} --unknown--> {q}"),
    }
}

// Prints the moves that leave p, by their targets, and those to a target by their labels.
fn print_moves_from<C: Chart>(rt: &impl Print, chart: &C, p: usize) -> io::Result<()> {
    for q in 0..chart.count() {
        let word = chart.word(p, q);
        for label in (0u8..32).filter(|&label| contains(word, label)) {
            print_move(rt, p, label, q)?;
        }
    }
    Ok(())
}

// Prints a chart: its count, and its moves read back from its words.
fn print_chart<C: Chart>(rt: &impl Print, title: &str, chart: &C) -> io::Result<()> {
    let count = chart.count();
    println!(rt; "  {title} has {count} states. Its moves:")?;
    for p in 0..count {
        print_moves_from(rt, chart, p)?;
    }
    Ok(())
}

// Prints what becomes of a list: its size, its check, and its chart. Each line is printed before the next is made.
pub(crate) fn tell(rt: &impl Print, title: &str, list: MoveList) -> io::Result<()> {
    rt.println(Size(Checked { title, list }))?;
    rt.println(Verdict(list))?;
    print_chart(rt, "The chart", &list.chart())
}

// Prints the chart of a list with an act hidden, and its quiet chart.
pub(crate) fn tell_layers(
    rt: &impl Print,
    alloc: Global,
    list: MoveList,
    act: Act,
) -> io::Result<()> {
    println!(rt; "  Now {act} is hidden.")?;
    let hidden = Hide::over(list.chart(), singleton(u8::from(act)));
    print_chart(rt, "The chart", &hidden)?;
    let quiet = Quiet::over(alloc, &hidden)?;
    print_chart(rt, "The quiet chart", &quiet)
}
