ghost use Rattle.std.specs.Prelude.{◌≡◌, ◌≤◌, ◌↔◌, Some, None, Option, drop, length, true};
ghost use Rattle.iso_words.specs.Numbers.{is_count, number};
ghost use Rattle.iso_words.specs.Scan.{begins, finished, is_over, is_word, job_by, none_yet, number_from, number_read, parts_from};
ghost use Rattle.iso_words.specs.Scan.{spoilt, step, with_count, with_seed, with_task, with_trace, with_word};
ghost use Rattle.iso_words.specs.Table.{IsRow, job_of, texts};

/// What a run of the program is to do.
#[derive(Clone, Copy, PartialEq, Eq)]
pub enum Job {
    /// Reads a script, runs it on threads, writes its transcript, with its trace behind it where `trace`.
    Run { trace: bool },
    /// Reads a script, runs it on this thread, by the seed where there is one, and writes its transcript, with its trace behind it
    /// where `trace`.
    Serial { seed: Option<u64>, trace: bool },
    /// Reads a script, and writes how many lines it has.
    Check,
    /// Writes the script that a seed makes.
    Generate { seed: u64, count: u32 },
    /// Runs the script that a seed makes, and writes the summary of its history.
    Mix { seed: u64, count: u32 },
}

/// The word of a job.
#[derive(Clone, Copy, PartialEq, Eq)]
pub enum Task {
    Run,
    Serial,
    Check,
    Generate,
    Mix,
}

/// The option whose value is the next word, if there is one.
#[derive(Clone, Copy, PartialEq, Eq)]
pub enum Awaits {
    Nothing,
    Seed,
    Count,
}

/// What the words so far say. It is `bad` once they are no row of the table of jobs.
#[derive(Clone, Copy)]
pub struct Parts {
    task: Option<Task>,
    seed: Option<u64>,
    count: Option<u64>,
    trace: bool,
    awaits: Awaits,
    bad: bool,
}

// One more than the greatest number that an option may have.
const BOUND: u128 = 1 << 64;

// Whether the word is this one.
fn is_word(word: &[u8], text: &[u8]) -> bool
    ensures { result ≡ is_word word.now text.now }
{
    word == text
}

// Whether the word begins so.
fn begins(word: &[u8], front: &[u8]) -> bool
    ensures front { result ≡ begins word.now front.now }
    ensures within { result ≡ true → length front.now ≤ length word.now }
{
    word.len() >= front.len() && &word[..front.len()] == front
}

// A number of 1 to 20 digits, below 2^64.
fn number(text: &[u8]) -> Option<u64>
    ensures { result ≡ number text.now }
{
    read_number(text)
}

// The same, digit by digit; a number past the bound stays at it.
fn read_number(text: &[u8]) -> Option<u64>
    ensures { result ≡ number_read text.now }
{
    if text.is_empty() || text.len() > 20 {
        return None;
    }
    let mut value: u128 = 0;
    for b in text {
        if *b < b'0' || *b > b'9' {
            return None;
        }
        value = (10 * value + u128::from(*b - b'0')).min(BOUND);
    }
    if value < BOUND {
        Some(value as u64)
    } else {
        None
    }
}

// The number behind so many bytes.
fn number_behind(word: &[u8], at: usize) -> Option<u64>
    requires { at ≤ length word.now }
    ensures { result ≡ number (drop at word.now) }
{
    number(&word[at..])
}

impl Parts {
    // No word yet.
    fn none_yet() -> Parts
        ensures { result ≡ none_yet }
    {
        Parts {
            task: None,
            seed: None,
            count: None,
            trace: false,
            awaits: Awaits::Nothing,
            bad: false,
        }
    }

    // The words are no row of the table.
    fn spoilt(self) -> Parts
        ensures { result ≡ spoilt self }
    {
        Parts { bad: true, ..self }
    }

    // With the seed, which stands once.
    fn with_seed(self, seed: Option<u64>) -> Parts
        ensures { result ≡ with_seed self seed }
    {
        match seed {
            Some(n) if self.seed.is_none() => Parts {
                seed: Some(n),
                awaits: Awaits::Nothing,
                ..self
            },
            _ => self.spoilt(),
        }
    }

    // With the count, which stands once.
    fn with_count(self, count: Option<u64>) -> Parts
        ensures { result ≡ with_count self count }
    {
        match count {
            Some(n) if self.count.is_none() => Parts {
                count: Some(n),
                awaits: Awaits::Nothing,
                ..self
            },
            _ => self.spoilt(),
        }
    }

    // With the job, which stands once.
    fn with_task(self, task: Task) -> Parts
        ensures { result ≡ with_task self task }
    {
        if self.task.is_some() {
            return self.spoilt();
        }
        Parts {
            task: Some(task),
            ..self
        }
    }

    // With --trace, which stands once.
    fn with_trace(self) -> Parts
        ensures { result ≡ with_trace self }
    {
        if self.trace {
            return self.spoilt();
        }
        Parts {
            trace: true,
            ..self
        }
    }

    // With a word where no value is awaited.
    fn with_word(self, word: &[u8]) -> Parts
        ensures { result ≡ with_word self word.now }
    {
        if is_word(word, b"run") {
            self.with_task(Task::Run)
        } else if is_word(word, b"serial") {
            self.with_task(Task::Serial)
        } else if is_word(word, b"check") {
            self.with_task(Task::Check)
        } else if is_word(word, b"generate") {
            self.with_task(Task::Generate)
        } else if is_word(word, b"mix") {
            self.with_task(Task::Mix)
        } else if is_word(word, b"--trace") {
            self.with_trace()
        } else if is_word(word, b"--seed") {
            Parts {
                awaits: Awaits::Seed,
                ..self
            }
        } else if is_word(word, b"--count") {
            Parts {
                awaits: Awaits::Count,
                ..self
            }
        } else if begins(word, b"--seed=") {
            self.with_seed(number_behind(word, 7))
        } else if begins(word, b"--count=") {
            self.with_count(number_behind(word, 8))
        } else {
            self.spoilt()
        }
    }

    // With one word more.
    fn step(self, word: &[u8]) -> Parts
        ensures { result ≡ step self word.now }
    {
        match self.awaits {
            Awaits::Nothing => self.with_word(word),
            Awaits::Seed => self.with_seed(number(word)),
            Awaits::Count => self.with_count(number(word)),
        }
    }

    // The job that they make, if they make one.
    fn finished(self) -> Option<Job>
        ensures { result ≡ finished self }
    {
        if self.bad || self.awaits != Awaits::Nothing {
            return None;
        }
        job_by(self.task, self.seed, self.count, self.trace)
    }
}

// The job of these parts.
fn job_by(task: Option<Task>, seed: Option<u64>, count: Option<u64>, trace: bool) -> Option<Job>
    ensures { result ≡ job_by task seed count trace }
{
    match (task, seed, count, trace) {
        (Some(Task::Run), None, None, _) => Some(Job::Run { trace }),
        (Some(Task::Serial), _, None, _) => Some(Job::Serial { seed, trace }),
        (Some(Task::Check), None, None, false) => Some(Job::Check),
        (Some(Task::Generate), Some(seed), Some(count), false) if is_count(count) => {
            Some(Job::Generate {
                seed,
                count: count as u32,
            })
        }
        (Some(Task::Mix), Some(seed), Some(count), false) if is_count(count) => Some(Job::Mix {
            seed,
            count: count as u32,
        }),
        _ => None,
    }
}

// Whether so many lines may be generated.
fn is_count(count: u64) -> bool
    ensures { result ≡ is_count count }
{
    1 <= count && count <= 10_000
}

// The job that the words name, word by word.
fn scanned(words: &[String]) -> Option<Job>
    ensures { result ≡ job_of (texts words.now) }
{
    let mut parts = Parts::none_yet();
    for word in words {
        parts = parts.step(word.as_bytes());
    }
    parts.finished()
}

/// The job that the words name by the table of jobs; None exactly where they are no row of it. It takes time for each byte of the
/// words.
pub fn read_words(words: &[String]) -> Option<Job>
    ensures scanned { result ≡ job_of (texts words.now) }
    ensures table { (job : Job) → (result ≡ Some job) ↔ IsRow (texts words.now) job }
    ensures none { (result ≡ None) ↔ ((job : Job) → IsRow (texts words.now) job → ⊥) }
{
    scanned(words)
}
