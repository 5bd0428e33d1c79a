// The planner once more, stored with a file that is one byte too long.
#![tactic(auto)]

use service::{Stream, serve};

fn main(rt: HostRuntime) -> anyhow::Result<()> {
    serve(rt.alloc(), Stream(rt.stdin()), &mut Stream(rt.stdout()))?;
    Ok(())
}
