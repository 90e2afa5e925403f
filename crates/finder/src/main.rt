//! The waiver finder: reads a case file from standard input and writes one report line for each of
//! its lines.

#![tactic(auto)]

use console::serve_input;

fn main(rt: HostRuntime) -> anyhow::Result<()> {
    serve_input(&rt)
}
