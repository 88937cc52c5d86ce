use super::*;
use std::test::Fail;

// The words and the job that they name.
const TABLE: [(&[&str], Option<Job>); 21] = [
    (&["run"], Some(Job::Run { trace: false })),
    (&["run", "--trace"], Some(Job::Run { trace: true })),
    (&["--trace", "run"], Some(Job::Run { trace: true })),
    (
        &["serial"],
        Some(Job::Serial {
            seed: None,
            trace: false,
        }),
    ),
    (
        &["serial", "--trace"],
        Some(Job::Serial {
            seed: None,
            trace: true,
        }),
    ),
    (
        &["--trace", "serial"],
        Some(Job::Serial {
            seed: None,
            trace: true,
        }),
    ),
    (
        &["--seed=0", "serial", "--trace"],
        Some(Job::Serial {
            seed: Some(0),
            trace: true,
        }),
    ),
    (&["serial", "--seed", "1", "--count", "1"], None),
    (&["check"], Some(Job::Check)),
    (
        &["generate", "--seed", "7", "--count=10000"],
        Some(Job::Generate {
            seed: 7,
            count: 10_000,
        }),
    ),
    (
        &["--count", "1", "--seed=18446744073709551615", "mix"],
        Some(Job::Mix {
            seed: u64::MAX,
            count: 1,
        }),
    ),
    (&[], None),
    (&["serial", "--seed"], None),
    (&["run", "--seed", "1"], None),
    (&["run", "--count", "2"], None),
    (&["run", "serial"], None),
    (&["check", "--trace"], None),
    (&["mix", "--seed", "7"], None),
    (&["mix", "--seed", "7", "--count", "10001"], None),
    (
        &["mix", "--seed", "18446744073709551616", "--count", "1"],
        None,
    ),
    (&["serial", "--trace", "--trace"], None),
];

#[test]
fn the_table(rt: HostRuntime) -> Result<(), Fail> {
    for (texts, job) in TABLE {
        let mut words = Vec::new(rt.alloc());
        for text in texts {
            words.push(String::from_str(rt.alloc(), *text)?)?;
        }
        assert!(rt; read_words(words.as_slice()) == job, "{texts:?}");
    }
    Ok(())
}
