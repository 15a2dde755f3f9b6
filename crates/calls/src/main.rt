// A checking program: reads cases from standard input, calls on each a function that the library exports, and writes what
// it says and leaves as lines of text. The input and the expected lines come from models, by tools/calls_cases.py, which has
// the format. The run and the step are tried by the program `replay`.
#![tactic(auto)]

mod call;
mod case;
mod head;
mod lines;
mod sessions;
mod words;

// What the lines of a case have room for.
type Lines = fields::Lines<4096>;

fn main(rt: HostRuntime) {
    let mut lines = Lines::new();
    fields::for_each_case(&rt, &mut [0; 136], |number, head| {
        case::answer(&rt, number, head, &mut lines)
    });
}
