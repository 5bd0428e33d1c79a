// The planner once more, stored with a sheet of as many bytes as a sheet may have.
#![tactic(auto)]

use service::{Stream, serve};

fn main(rt: HostRuntime) -> anyhow::Result<()> {
    serve(rt.alloc(), Stream(rt.stdin()), &mut Stream(rt.stdout()))?;
    Ok(())
}
