ghost use Rattle.std.specs.Prelude.{◌≡◌, ℕ, ◌≤◌, ◌⊎◌, Some, None, Option, ◌↔◌, List, [], ◌∷◌, ◌++◌, string_bytes, length, true, IsTrue, IfOk, codes};
ghost use Rattle.std.specs.Fmt.{decimal};
ghost use Rattle.std.specs.Io.KnownBytes.{Appends, Consumes, IsAtEnd};
ghost use Rattle.iso_engine.specs.Job.{IsAnswered, IsComplete, IsCounted, IsDriven, IsInOrder, IsMixed, IsOutcome, IsRefusal, IsRunWhole, IsSaid, IsSaidWhole, IsScript, IsTold, TellsRefusal, IsWritten, aim_of, course_of, mixing, output_of, refusal_at, told_by, usage};
ghost use Rattle.iso_io.specs.Moves.{AppendsPart, HasRisen};
ghost use Rattle.iso_script.specs.Reading.{place_at, word_of};
ghost use Rattle.iso_script.specs.Sound.{IsSound};
ghost use Rattle.iso_engine.specs.Stopping as stopping;
ghost use Rattle.iso_generate.specs.Generated.{generated};
ghost use Rattle.iso_words.specs.Table.{job_of, texts};
ghost use Rattle.iso_words.specs.declared.parts.Job.TheVariants.{Generate, Mix};
ghost use Rattle.iso_engine.specs.declared.job.Aim.TheVariants.{Run};
ghost use Rattle.iso_conduct.specs.Conduct.{stops_for_memory as is_memory_stop};
ghost use Rattle.iso_conduct.specs.Legal.{AreGuarded, IsFinished, IsLegal};
ghost use Rattle.iso_script.specs.Reading.{reads};
ghost use Rattle.iso_script.specs.declared.script.Script.{Script as Program};

use iso_generate::generate;
use iso_history::{Act, Cause, Entry, History};
use iso_io::{ReadFault, Sink, Source, read_script, write_whole};
use iso_render::{Output, write_count, write_output};
use iso_script::{LineCause, Script, ScriptFault};
use iso_serial::run_serial;
use iso_threads::run_threads;
use iso_types::Gate;
use iso_words::{Job, read_words};
use std::alloc::{AllocError, Global};
use std::sync::Wait;
use std::thread::Threads;

/// What a run of the program answers: its exit status, and the history, which is empty where no run began.
#[derive(Drop)]
pub struct Report {
    pub status: u8,
    pub history: History,
}

/// The line of a refusal.
fn refusal_line(alloc: Global, line: u32, word: &str, place: u32) -> Result<String, AllocError>
    ensures { IfOk result (λ text. string_bytes text ≡ codes "LINE " ++ decimal line ++ codes " " ++ word.now ++ codes " AT " ++ decimal place ++ codes "\n") }
{
    let mut text = format!(in alloc; "LINE {line} ")?;
    text.push_str(word)?;
    let at = format!(in alloc; " AT {place}\n")?;
    text.push_str(at.as_str())?;
    Ok(text)
}

/// The line that refuses a script at its first bad line.
fn refusal(alloc: Global, line: u32, cause: LineCause) -> Result<String, AllocError>
    ensures { IfOk result (λ text. string_bytes text ≡ refusal_at line cause) }
{
    let (word, place) = cause.word_and_place();
    refusal_line(alloc, line, word, place)
}

/// A report without a run.
fn without_run(status: u8, alloc: Global) -> Report
    ensures status { result.status ≡ status }
    ensures history { result.history.items ≡ [] }
{
    Report {
        status,
        history: History::new(alloc),
    }
}

/// The exit status of a run by the stops in its history: 5 where somebody stopped for want of memory, else 6 where somebody
/// stopped at a limit, else 0. It looks at each entry.
fn status_of(entries: &[Entry]) -> u8
    ensures { result ≡ stopping.status_of entries.now }
{
    if has_memory_stop(entries) {
        5
    } else if has_limit_stop(entries) {
        6
    } else {
        0
    }
}

/// Whether somebody stopped at the limit of the history or of a table.
fn has_limit_stop(entries: &[Entry]) -> bool
    ensures { result ≡ stopping.has_limit_stop entries.now }
{
    entries.iter().any(|entry| stops_at_limit(&entry.act))
}

/// Whether somebody stopped for want of memory.
fn has_memory_stop(entries: &[Entry]) -> bool
    ensures { result ≡ stopping.has_memory_stop entries.now }
{
    entries.iter().any(|entry| stops_for_memory(&entry.act))
}

/// Whether it is a stop at the limit of the history or of a table.
fn stops_at_limit(act: &Act) -> bool
    ensures { result ≡ stopping.stops_at_limit act.now }
{
    matches!(
        act,
        Act::Stopped {
            cause: Cause::History | Cause::Table
        }
    )
}

/// Whether it is a stop for want of memory.
fn stops_for_memory(act: &Act) -> bool
    ensures { result ≡ is_memory_stop act.now }
{
    matches!(
        act,
        Act::Stopped {
            cause: Cause::Memory
        }
    )
}

/// How a script is run.
#[derive(Clone, Copy)]
enum Way {
    /// On threads, one for each connection that gets one.
    Threaded,
    /// On this thread, by the words of the seed where there is one.
    Serial(Option<u64>),
}

/// How a script is run, and what is written of the run.
#[derive(Clone, Copy)]
struct Course {
    way: Way,
    output: Output,
}

/// What is made of a script that was read.
#[derive(Clone, Copy)]
enum Aim {
    /// It is run so.
    Run(Course),
    /// Its lines are counted.
    Count,
}

/// The history of a run, on threads or on this thread; want of memory comes before its first entry alone.
fn run_by<R: Threads + Wait + Sync, G: Gate + Sync>(
    rt: &R,
    alloc: Global,
    script: &Script,
    way: Way,
    gate: &G,
) -> Result<History, AllocError>
    requires sound { IsSound script.now }
    ensures legal { IfOk result (λ h. IsLegal script.now h.items) }
    ensures guarded { IfOk result (λ h. AreGuarded script.now h.items) }
    ensures finished { IfOk result (λ h. IsFinished h.items) }
    ensures driven { IfOk result (λ h. IsDriven way script.now h.items) }
{
    match way {
        Way::Threaded => match run_threads(rt, alloc, script, gate) {
            Ok(history) => Ok(history),
            Err(_) => Err(AllocError),
        },
        Way::Serial(seed) => match run_serial(alloc, script, seed) {
            Ok(history) => Ok(history),
            Err(_) => Err(AllocError),
        },
    }
}

/// Runs a script and writes what is to be written of the run.
fn run_script<R: Threads + Wait + Sync, K: Sink, G: Gate + Sync>(
    rt: &R,
    alloc: Global,
    script: &Script,
    course: Course,
    sink: &mut K,
    gate: &G,
) -> Report
    requires sound { IsSound script.now }
    ensures told { IsTold course script.now result.status result.history.items (K.held sink.old) (K.held sink.new) }
    ensures fault { result.status ≡ 4 → HasRisen (K.faults sink.old) (K.faults sink.new) }
    ensures read { (result.status ≡ 3 → ⊥) × (result.status ≡ 2 → ⊥) }
{
    let history = match run_by(rt, alloc, script, course.way, gate) {
        Ok(history) => history,
        Err(_) => return without_run(5, alloc),
    };
    let text = match write_output(alloc, course.output, script, &history) {
        Ok(text) => text,
        Err(_) => return Report { status: 5, history },
    };
    match write_whole(sink, text.as_slice()) {
        Ok(()) => {
            let status = status_of(history.as_slice());
            Report { status, history }
        }
        Err(_) => Report { status: 4, history },
    }
}

/// Writes a text without a run.
fn say<K: Sink>(alloc: Global, text: &[u8], sink: &mut K) -> Report
    ensures said { IsSaid text.now result.status result.history.items (K.held sink.old) (K.held sink.new) }
    ensures fault { result.status ≡ 4 → HasRisen (K.faults sink.old) (K.faults sink.new) }
    ensures read { (result.status ≡ 3 → ⊥) × (result.status ≡ 2 → ⊥) }
{
    match write_whole(sink, text) {
        Ok(()) => without_run(0, alloc),
        Err(_) => without_run(4, alloc),
    }
}

/// Writes how many lines a script has.
fn say_count<K: Sink>(alloc: Global, script: &Script, sink: &mut K) -> Report
    ensures told { IsCounted script.now result.status result.history.items (K.held sink.old) (K.held sink.new) }
    ensures fault { result.status ≡ 4 → HasRisen (K.faults sink.old) (K.faults sink.new) }
    ensures read { (result.status ≡ 3 → ⊥) × (result.status ≡ 2 → ⊥) }
{
    match write_count(alloc, script) {
        Ok(text) => say(alloc, text.as_slice(), sink),
        Err(_) => without_run(5, alloc),
    }
}

/// Makes of a script what the job aims at.
fn tell<R: Threads + Wait + Sync, K: Sink, G: Gate + Sync>(
    rt: &R,
    alloc: Global,
    script: &Script,
    aim: Aim,
    sink: &mut K,
    gate: &G,
) -> Report
    requires sound { IsSound script.now }
    ensures told { told_by aim script.now result.status result.history.items (K.held sink.old) (K.held sink.new) }
    ensures fault { result.status ≡ 4 → HasRisen (K.faults sink.old) (K.faults sink.new) }
    ensures read { (result.status ≡ 3 → ⊥) × (result.status ≡ 2 → ⊥) }
{
    match aim {
        Aim::Run(course) => run_script(rt, alloc, script, course, sink, gate),
        Aim::Count => say_count(alloc, script, sink),
    }
}

/// Refuses a script at its first bad line.
fn refuse<K: Sink>(alloc: Global, line: u32, cause: LineCause, sink: &mut K) -> Report
    ensures refusal { IsRefusal line cause result.status result.history.items (K.held sink.old) (K.held sink.new) }
    ensures whole { result.status ≡ 2 → IsWritten (HasRisen (K.faults sink.old) (K.faults sink.new)) (K.held sink.old) (K.held sink.new) (refusal_at line cause) }
{
    match refusal(alloc, line, cause) {
        Ok(text) => {
            let _ = write_whole(sink, text.as_bytes());
            without_run(2, alloc)
        }
        Err(_) => without_run(5, alloc),
    }
}

/// Reads a script from its bytes, which are all that the source had, and makes of it what the job aims at.
fn tell_bytes<R: Threads + Wait + Sync, K: Sink, G: Gate + Sync>(
    rt: &R,
    alloc: Global,
    bytes: &[u8],
    aim: Aim,
    sink: &mut K,
    gate: &G,
) -> Report
    requires { length bytes.now ≤ 1048576 }
    ensures outcome { (left : Option (List ℕ)) → IsAtEnd left → IsOutcome (told_by aim) bytes.now left result.status result.history.items (K.held sink.old) (K.held sink.new) }
    ensures read { result.status ≡ 3 → ⊥ }
    ensures fault { result.status ≡ 4 → HasRisen (K.faults sink.old) (K.faults sink.new) }
    ensures refusal { result.status ≡ 2 → (left : Option (List ℕ)) → IsAtEnd left
        → TellsRefusal bytes.now left (HasRisen (K.faults sink.old) (K.faults sink.new)) (K.held sink.old) (K.held sink.new) }
{
    match Script::read(alloc, bytes) {
        Ok(script) => tell(rt, alloc, &script, aim, sink, gate),
        Err(ScriptFault::Memory) => without_run(5, alloc),
        Err(ScriptFault::BadLine(line, cause)) => refuse(alloc, line, cause, sink),
    }
}

/// Reads the source to its end, and makes of the script what the job aims at.
fn tell_source<R: Threads + Wait + Sync, S: Source, K: Sink, G: Gate + Sync>(
    rt: &R,
    alloc: Global,
    aim: Aim,
    source: &mut S,
    sink: &mut K,
    gate: &G,
) -> Report
    ensures named { result.status ≡ 1 → ⊥ }
    ensures refusal { result.status ≡ 2 → (bytes : List ℕ) × Consumes (S.left source.old) (S.left source.new) bytes
        × TellsRefusal bytes (S.left source.new) (HasRisen (K.faults sink.old) (K.faults sink.new)) (K.held sink.old) (K.held sink.new) }
    ensures source_fault { result.status ≡ 3 → HasRisen (S.faults source.old) (S.faults source.new) }
    ensures sink_fault { result.status ≡ 4 → HasRisen (K.faults sink.old) (K.faults sink.new) }
    ensures outcome { (bytes : List ℕ) × Consumes (S.left source.old) (S.left source.new) bytes
        × IsOutcome (told_by aim) bytes (S.left source.new) result.status result.history.items (K.held sink.old) (K.held sink.new) }
{
    match read_script(alloc, source) {
        Ok(bytes) => tell_bytes(rt, alloc, bytes.as_slice(), aim, sink, gate),
        Err(ReadFault::ReadFault) => without_run(3, alloc),
        Err(ReadFault::TooLong) => {
            let _ = write_whole(sink, b"LINE 0 TOO LONG\n");
            without_run(2, alloc)
        }
        Err(ReadFault::Memory) => without_run(5, alloc),
    }
}

/// Writes the script that a seed makes.
fn make<K: Sink>(alloc: Global, seed: u64, count: u32, sink: &mut K) -> Report
    ensures said { IsSaid (generated seed count) result.status result.history.items (K.held sink.old) (K.held sink.new) }
    ensures fault { result.status ≡ 4 → HasRisen (K.faults sink.old) (K.faults sink.new) }
    ensures read { (result.status ≡ 3 → ⊥) × (result.status ≡ 2 → ⊥) × (result.status ≡ 1 → ⊥) }
{
    match generate(alloc, seed, count) {
        Ok(text) => say(alloc, text.as_slice(), sink),
        Err(_) => without_run(5, alloc),
    }
}

/// Runs the script that a seed makes, and writes the summary of the run. No such script is refused or too long; where one were,
/// the answer would be that of want of memory.
fn mix<R: Threads + Wait + Sync, K: Sink, G: Gate + Sync>(
    rt: &R,
    alloc: Global,
    seed: u64,
    count: u32,
    sink: &mut K,
    gate: &G,
) -> Report
    ensures mixed { IsMixed seed count result.status result.history.items (K.held sink.old) (K.held sink.new) }
    ensures fault { result.status ≡ 4 → HasRisen (K.faults sink.old) (K.faults sink.new) }
    ensures read { (result.status ≡ 3 → ⊥) × (result.status ≡ 2 → ⊥) × (result.status ≡ 1 → ⊥) }
{
    let text = match generate(alloc, seed, count) {
        Ok(text) => text,
        Err(_) => return without_run(5, alloc),
    };
    if text.len() > 1_048_576 {
        return without_run(5, alloc);
    }
    match Script::read(alloc, text.as_slice()) {
        Ok(script) => {
            let course = Course {
                way: Way::Serial(None),
                output: Output::Summary,
            };
            run_script(rt, alloc, &script, course, sink, gate)
        }
        Err(_) => without_run(5, alloc),
    }
}

/// What the jobs `run` and `serial` write.
fn output_of(trace: bool) -> Output
    ensures { result ≡ output_of trace }
{
    if trace {
        Output::Traced
    } else {
        Output::Transcript
    }
}

/// How the jobs `run` and `serial` run a script.
fn course_of(way: Way, trace: bool) -> Course
    ensures { result ≡ course_of way trace }
{
    Course {
        way,
        output: output_of(trace),
    }
}

/// Runs the job that the words name: `run [--trace]` reads a script from the source, runs it with a thread for each connection, and
/// writes its transcript to the sink, with its trace behind it; `serial [--seed N] [--trace]` does the same on this thread, with N
/// as the seed of its schedule; `check` reads a script and writes how many lines it has; `generate --seed N --count M` writes the
/// script that a seed makes; `mix --seed N --count M` runs that script on this thread and writes the summary of the run.
///
/// Status 1: the words name no job. 3: the source failed. 2: the script is refused, at its first
/// bad line or for its length. 4: the sink failed. 5: memory was wanting: before the run or for its text, and then
/// nothing is written, or somebody stopped for it in the run. 6: somebody stopped at the limit of the history or of a
/// table. 0: every line is answered. Where several hold, the first of these is answered (`order`). It takes one pass over the bytes,
/// time for each entry of the history, and two or three passes over the history. With `run` the threads take turns at the history
/// by `rt`, and call the gate outside of it; no return is promised there. No other job waits. (This project's own.)
pub fn db2iso<R: Threads + Wait + Sync, S: Source, K: Sink, G: Gate + Sync>(
    rt: &R,
    alloc: Global,
    words: &[String],
    source: &mut S,
    sink: &mut K,
    gate: &G,
) -> Report
    ensures usage { (result.status ≡ 1) ↔ (job_of (texts words.now) ≡ None) }
    ensures usage_text { result.status ≡ 1 → (result.history.items ≡ []) × AppendsPart (K.held sink.old) (K.held sink.new) usage }
    ensures usage_whole { result.status ≡ 1 → IsWritten (HasRisen (K.faults sink.old) (K.faults sink.new)) (K.held sink.old) (K.held sink.new) usage }
    ensures refusal { result.status ≡ 2 → (bytes : List ℕ) × Consumes (S.left source.old) (S.left source.new) bytes
        × TellsRefusal bytes (S.left source.new) (HasRisen (K.faults sink.old) (K.faults sink.new)) (K.held sink.old) (K.held sink.new) }
    ensures source_fault { result.status ≡ 3 → HasRisen (S.faults source.old) (S.faults source.new) }
    ensures sink_fault { result.status ≡ 4 → HasRisen (K.faults sink.old) (K.faults sink.new) }
    ensures order { IsInOrder (job_of (texts words.now)) (S.left source.old) (S.left source.new)
        (HasRisen (S.faults source.old) (S.faults source.new)) (HasRisen (K.faults sink.old) (K.faults sink.new)) result.history.items result.status }
    ensures outcome { (aim : Aim) → aim_of (job_of (texts words.now)) ≡ Some aim → (bytes : List ℕ) × Consumes (S.left source.old) (S.left source.new) bytes
        × IsOutcome (told_by aim) bytes (S.left source.new) result.status result.history.items (K.held sink.old) (K.held sink.new) }
    ensures answered { (course : Course) → aim_of (job_of (texts words.now)) ≡ Some (Run course) → (all : List ℕ) → S.left source.old ≡ Some all
        → IsAnswered course all (S.left source.new) result.status result.history.items (K.held sink.old) (K.held sink.new) }
    ensures complete { (aim : Aim) → aim_of (job_of (texts words.now)) ≡ Some aim → (bytes : List ℕ) → S.left source.old ≡ Some bytes
        → (script : Program) → IsScript bytes script
        → ¬ HasRisen (S.faults source.old) (S.faults source.new) → ¬ HasRisen (K.faults sink.old) (K.faults sink.new)
        → IsComplete aim script result.status result.history.items (S.left source.new) (K.held sink.old) (K.held sink.new) ⊎ (result.status ≡ 5) }
    ensures generated { (seed count : ℕ) → job_of (texts words.now) ≡ Some (Generate seed count)
        → IsSaid (generated seed count) result.status result.history.items (K.held sink.old) (K.held sink.new) }
    ensures generated_whole { (seed count : ℕ) → job_of (texts words.now) ≡ Some (Generate seed count)
        → ¬ HasRisen (K.faults sink.old) (K.faults sink.new)
        → IsSaidWhole (generated seed count) result.status (K.held sink.old) (K.held sink.new) ⊎ (result.status ≡ 5) }
    ensures mixed { (seed count : ℕ) → job_of (texts words.now) ≡ Some (Mix seed count)
        → IsMixed seed count result.status result.history.items (K.held sink.old) (K.held sink.new) }
    ensures mixed_whole { (seed count : ℕ) → job_of (texts words.now) ≡ Some (Mix seed count)
        → (script : Program) → reads (generated seed count) script → ¬ HasRisen (K.faults sink.old) (K.faults sink.new)
        → IsRunWhole mixing script result.status result.history.items (K.held sink.old) (K.held sink.new) ⊎ (result.status ≡ 5) }
    ensures unread { aim_of (job_of (texts words.now)) ≡ None → (S.left source.new ≡ S.left source.old) × (S.faults source.new ≡ S.faults source.old) }
{
    match read_words(words) {
        None => {
            let _ = write_whole(sink, b"USAGE\n");
            without_run(1, alloc)
        }
        Some(Job::Run { trace }) => {
            let course = course_of(Way::Threaded, trace);
            tell_source(rt, alloc, Aim::Run(course), source, sink, gate)
        }
        Some(Job::Serial { seed, trace }) => {
            let course = course_of(Way::Serial(seed), trace);
            tell_source(rt, alloc, Aim::Run(course), source, sink, gate)
        }
        Some(Job::Check) => tell_source(rt, alloc, Aim::Count, source, sink, gate),
        Some(Job::Generate { seed, count }) => make(alloc, seed, count, sink),
        Some(Job::Mix { seed, count }) => mix(rt, alloc, seed, count, sink, gate),
    }
}
