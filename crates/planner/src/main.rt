// The planner: a class sheet from standard input, the lines for it to standard output.
#![tactic(auto)]

use service::{Stream, serve};

fn main(rt: HostRuntime) -> anyhow::Result<()> {
    serve(rt.alloc(), Stream(rt.stdin()), &mut Stream(rt.stdout()))?;
    Ok(())
}
