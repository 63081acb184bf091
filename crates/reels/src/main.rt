// The dumps of a bundle of run files: for each file its length, two bytes with the low one first, and its bytes come in;
// a line `file N`, counted from 1, and the dump come out.
#![tactic(auto)]

fn main() {
    sheet::of_bundle(|input, desk| {
        tape::print(
            schedule::KIND_6569,
            input,
            &mut desk.ram,
            &mut desk.rom,
            &mut desk.colour,
            &mut desk.out,
        );
    });
}
