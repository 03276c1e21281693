// The figures of a module, each by its name.
use shelf::Figures;
use std::io;

// The gates by their numbers.
const KINDS: [&str; 16] = [
    "B-BUF", "B-NOT", "B-NAND", "B-NAND3", "B-NAND4", "B-OR", "B-OR3", "B-OR4", "B-EQV", "B-XOR",
    "B-AND", "B-AND3", "B-AND4", "B-NOR", "B-NOR3", "B-NOR4",
];

// The figures, and the gates of each kind.
pub fn show(rt: &impl Print, figures: Figures) -> io::Result<()> {
    show_figures(rt, figures)?;
    let tally = figures.tally;
    for (kind, count) in KINDS.iter().zip(tally.counts.iter()) {
        print!(rt; " {kind} {count}")?;
    }
    println!(rt)
}

fn show_figures(rt: &impl Print, figures: Figures) -> io::Result<()> {
    let Figures {
        inputs,
        outputs,
        tally: _,
        gates,
        size,
        room,
        delay,
        load,
        family,
    } = figures;
    print!(rt;
        "inputs {inputs} outputs {outputs} gates {gates} size {size} room {room} delay {delay} load {load} family {family}"
    )
}
