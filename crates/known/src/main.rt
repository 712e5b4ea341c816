// Reads known programs, accepted and refused, and writes what is said of each, one line each; then how many updates and nodes a
// known program gives. The known pairs are the first of `corpus`.
#![tactic(auto)]

mod rows;
mod unrolled;

fn main(rt: HostRuntime) {
    rows::accepted(&rt);
    rows::refused(&rt);
    rows::cut_and_longer(&rt);
    rows::marks(&rt);
    rows::operators(&rt);
    rows::roles(&rt);
    rows::dimensions(&rt);
    rows::sizes(&rt);
    rows::nesting(&rt);
    rows::targets(&rt);
    rows::loops_and_guards(&rt);
    rows::nodes(&rt);
    rows::operators_deep(&rt);
    rows::ends(&rt);
    rows::lengths(&rt);
    unrolled::jacobi(&rt);
}
