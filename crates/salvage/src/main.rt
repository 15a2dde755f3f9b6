// A checking program: reads damaged listings from standard input, rescues each by the library, and writes what it says and
// leaves as lines of text. The input and the expected lines come from a model, by tools/rescue_cases.py, which has the format.
#![tactic(auto)]

mod case;

// What the lines of a case have room for.
type Lines = fields::Lines<65536>;

fn main(rt: HostRuntime) {
    let mut lines = Lines::new();
    fields::for_each_case(&rt, &mut [0; 24], |number, head| {
        case::answer(&rt, number, head, &mut lines)
    });
}
