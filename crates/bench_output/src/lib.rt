// No code: what the bench program writes, as one definition from the bytes of its input (specs/Output). The crates `bench_lines` and
// `bench_areas` are proved against it.

#![tactic(auto)]
