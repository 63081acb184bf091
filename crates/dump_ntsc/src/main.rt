// The dump of a run file on a 6567R8, for a waveform viewer: standard input is the file, standard output the Value Change Dump.
#![tactic(auto)]

fn main() {
    sheet::of_input(|input, desk| {
        tape::print(
            schedule::KIND_6567R8,
            input,
            &mut desk.ram,
            &mut desk.rom,
            &mut desk.colour,
            &mut desk.out,
        );
    });
}
