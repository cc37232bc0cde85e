// The bench program: it reads its input from standard input. The crate bench_run says what it does.
#![tactic(auto)]

use std::io;

fn main(rt: HostRuntime) -> io::Result<()> {
    bench_run::run(&rt, &mut rt.stdin(), &mut rt.stdout()).or_else(|failure| bench_run::tell(
        &rt, &failure,
    ))
}
