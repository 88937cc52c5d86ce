ghost use Rattle.std.specs.Prelude.{◌≡◌, ◌++◌, IfOk};
ghost use Rattle.iso_render.specs.Outputs.{count_text, output_text};
ghost use Rattle.iso_render.specs.Trace.{trace};
ghost use Rattle.iso_render.specs.Transcript.{transcript};

use crate::put::{put, put_number};
use crate::{summary, trace, transcript};
use iso_history::History;
use iso_script::Script;
use iso_types::{Items, Memory};
use std::alloc::Global;

/// What is to be written of a run.
#[derive(Clone, Copy)]
pub enum Output {
    /// Its transcript.
    Transcript,
    /// Its transcript, and its trace behind it.
    Traced,
    /// Its summary.
    Summary,
}

// The transcript, and the trace behind it.
fn traced(alloc: Global, script: &Script, history: &History) -> Result<Items<u8>, Memory>
    ensures { IfOk result (λ text. text ≡ transcript script.now history.now.items ++ trace script.now history.now.items) }
{
    let text = transcript(alloc, script, history)?;
    let behind = trace(alloc, script, history)?;
    let mut all = Vec::new(alloc);
    put(&mut all, text.as_slice())?;
    put(&mut all, behind.as_slice())?;
    Ok(Items::from_vec(all))
}

/// What is to be written of a run. `Memory` comes only for want of memory. It takes one pass over the history, two with a trace.
pub fn write_output(
    alloc: Global,
    output: Output,
    script: &Script,
    history: &History,
) -> Result<Items<u8>, Memory>
    ensures { IfOk result (λ text. text ≡ output_text output script.now history.now.items) }
{
    match output {
        Output::Transcript => transcript(alloc, script, history),
        Output::Traced => traced(alloc, script, history),
        Output::Summary => summary(alloc, script, history),
    }
}

/// How many lines the script has: statements, EXPIRE and SNAPSHOT lines. `Memory` comes only for want of memory.
pub fn write_count(alloc: Global, script: &Script) -> Result<Items<u8>, Memory>
    ensures { IfOk result (λ text. text ≡ count_text script.now) }
{
    let mut out = Vec::new(alloc);
    put(&mut out, b"SCRIPT OK ")?;
    put_number(&mut out, script.lines.len() as u64)?;
    put(&mut out, b"\n")?;
    Ok(Items::from_vec(out))
}
