// The chart of a run file: standard input is the file, standard output a line for each tick.
#![tactic(auto)]

fn main() {
    sheet::of_input(|input, desk| {
        sheet::print(
            schedule::KIND_6569,
            input,
            &mut desk.ram,
            &mut desk.rom,
            &mut desk.colour,
            &mut desk.out,
        );
    });
}
