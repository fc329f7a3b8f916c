//! `ddcap` judges whether two text captures of one DDCMP line, between two DECnet Phase IV end nodes, are together a run of the protocols, or
//! whether one of them can be a side of such a run, and prints the verdict; it tells why they are refused, draws what passed between them, or
//! counts which rows of the rule tables they went through; it shows what one capture says, or writes it in another format; it writes both captures
//! that a script stands for; or it tells what its words do, and what a reason means. It reads the files that it is given, and writes those that it
//! is told to and its two streams; it never touches a line, a clock or another file.
#![tactic(auto)]

use std::process::ExitCode;
use wire_base::Tally;

mod draw_words;
mod explain;
mod help;
mod judging_words;
mod named;
mod run;
mod words;

fn main(rt: HostRuntime) -> ExitCode {
    let mut out = Tally::new(rt.stdout());
    let mut err = Tally::new(rt.stderr());
    ExitCode::from(run::run(&rt, &mut out, &mut err))
}
