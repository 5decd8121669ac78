use al_value::Settings;
use al_words::{Command, WordsFault, read_words};
use std::alloc::Global;
use std::test::Fail;

/// What the words of a line ask for, which stand between single spaces.
fn read(alloc: Global, line: &str) -> Result<Result<Command, WordsFault>, Fail> {
    let mut words = Vec::new(alloc);
    for word in line.split(' ') {
        words.push(String::from_str(alloc, word)?)?;
    }
    Ok(read_words(alloc, words.as_slice()))
}

fn is_refused(alloc: Global, line: &str) -> Result<bool, Fail> {
    match read(alloc, line)? {
        Err(WordsFault::Usage) => Ok(true),
        _ => Ok(false),
    }
}

const DEFAULTS: Settings = Settings {
    partitions: 1,
    frame_size: 32_768,
    memory: 32,
};

const SMALL: Settings = Settings {
    partitions: 1,
    frame_size: 256,
    memory: 3,
};

/// Whether the line is `step p` with these settings and a schedule that prints so.
fn is_step(alloc: Global, line: &str, wanted: Settings, printed: &str) -> Result<bool, Fail> {
    let Ok(
        Command::Step {
            plan,
            settings,
            schedule,
        },
    ) = read(alloc, line)?
    else {
        return Ok(false);
    };
    let mut text = String::new(alloc);
    for part in schedule.parts() {
        text.push('/')?;
        for number in part.as_slice() {
            text.push_str(number.to_string(alloc)?.as_str())?;
            text.push(',')?;
        }
    }
    Ok(plan.as_str() == "p" && settings == wanted && text.as_str() == printed)
}

const REFUSED: [&str; 44] = [
    // Words.
    "step",
    "step p --memory 2",
    "check p --workers 2",
    "--help",
    "",
    " p",
    "chec p",
    "check p q",
    "check -p",
    "plain -5",
    "check p -- --",
    "gen 7 0 p q",
    // Numbers.
    "gen 7",
    "gen 7 ",
    "gen +7 0",
    "gen 4294967296 0",
    "gen 00000000007 0",
    "gen 7 1000001",
    "step p --partitions 17",
    "step p --partitions=0",
    "step p --frame-size 255",
    "step p --frame-size=65537",
    "step p --memory 1025",
    "run p --workers 17",
    // Options.
    "step p --memory 4 --memory=4",
    "step p --memory -5",
    "step p --memory -",
    "step p --memory",
    "step p --memory --",
    "step p --mem 4",
    "step p --workers 2",
    "run p --schedule 1",
    "explain p --memory 3",
    "drill 7 200 p --workers 2",
    // Schedules.
    "step p --schedule=",
    "step p --schedule /",
    "step p --schedule //",
    "step p --schedule 1,",
    "step p --schedule ,1",
    "step p --schedule 1,,2",
    "step p --schedule 1/,",
    "step p --schedule 4294967296",
    "step p --schedule=-1",
    "step p --schedule a",
];

#[test]
fn refuses_words(rt: HostRuntime) -> Result<(), Fail> {
    let alloc = rt.alloc();
    for line in REFUSED {
        assert!(rt; is_refused(alloc, line)?, "{line}");
    }
    let none: Vec<String> = Vec::new(alloc);
    assert!(rt; matches!(read_words(alloc, none.as_slice()), Err(WordsFault::Usage)));
    Ok(())
}

#[test]
fn reads_steps(rt: HostRuntime) -> Result<(), Fail> {
    let alloc = rt.alloc();
    assert!(rt; is_step(alloc, "step p", DEFAULTS, "")?);
    let set = Settings {
        partitions: 4,
        frame_size: 256,
        memory: 3,
    };
    let line = "step p --partitions=4 --frame-size 256 --memory 3 --schedule 1,2//3";
    assert!(rt; is_step(alloc, line, set, "/1,2,//3,")?);
    let line = "--memory=0000000003 step --schedule=/4294967295 --frame-size=256 -- p";
    assert!(rt; is_step(alloc, line, SMALL, "//4294967295,")?);
    Ok(())
}

#[test]
fn reads_plans(rt: HostRuntime) -> Result<(), Fail> {
    let alloc = rt.alloc();
    match read(alloc, "check -- --x")? {
        Ok(Command::Check { plan }) => assert_eq!(rt; plan.as_str(), "--x"),
        _ => return Err(Fail::from("no check")),
    }
    match read(alloc, "plain -")? {
        Ok(Command::Plain { plan }) => assert_eq!(rt; plan.as_str(), "-"),
        _ => return Err(Fail::from("no plain")),
    }
    match read(alloc, "plain ")? {
        Ok(Command::Plain { plan }) => assert_eq!(rt; plan.as_str(), ""),
        _ => return Err(Fail::from("no plain")),
    }
    match read(alloc, "explain --partitions 16 p")? {
        Ok(Command::Explain { plan, partitions }) => {
            assert_eq!(rt; plan.as_str(), "p");
            assert_eq!(rt; partitions, 16);
        }
        _ => return Err(Fail::from("no explain")),
    }
    Ok(())
}

#[test]
fn reads_runs(rt: HostRuntime) -> Result<(), Fail> {
    let alloc = rt.alloc();
    match read(alloc, "run p")? {
        Ok(
            Command::Run {
                plan,
                settings,
                workers,
            },
        ) => {
            assert_eq!(rt; plan.as_str(), "p");
            assert!(rt; settings == DEFAULTS);
            assert_eq!(rt; workers, 2);
        }
        _ => return Err(Fail::from("no run")),
    }
    match read(alloc, "run p --workers 1")? {
        Ok(
            Command::Run {
                plan: _,
                settings: _,
                workers,
            },
        ) => assert_eq!(rt; workers, 1),
        _ => return Err(Fail::from("no run")),
    }
    Ok(())
}

#[test]
fn reads_data(rt: HostRuntime) -> Result<(), Fail> {
    let alloc = rt.alloc();
    match read(alloc, "gen 7 0")? {
        Ok(Command::Gen { seed, rows }) => {
            assert_eq!(rt; seed, 7);
            assert_eq!(rt; rows, 0);
        }
        _ => return Err(Fail::from("no gen")),
    }
    match read(alloc, "drill 7 200 b.plan --frame-size 256 --memory 3")? {
        Ok(
            Command::Drill {
                seed,
                rows,
                plan,
                settings,
            },
        ) => {
            assert_eq!(rt; seed, 7);
            assert_eq!(rt; rows, 200);
            assert_eq!(rt; plan.as_str(), "b.plan");
            assert!(rt; settings == SMALL);
        }
        _ => return Err(Fail::from("no drill")),
    }
    match read(alloc, "frames p t --frame-size 256")? {
        Ok(
            Command::Frames {
                plan,
                dataset,
                frame_size,
            },
        ) => {
            assert_eq!(rt; plan.as_str(), "p");
            assert_eq!(rt; dataset.as_str(), "t");
            assert_eq!(rt; frame_size, 256);
        }
        _ => return Err(Fail::from("no frames")),
    }
    Ok(())
}

/// `step p` with a schedule of two parts: the first has 4 numbers, and there are `numbers` in all.
fn long_schedule(alloc: Global, numbers: u32) -> Result<Result<Command, WordsFault>, Fail> {
    let mut line = String::from_str(alloc, "step p --schedule 1,2,3,4/5")?;
    for _ in 5..numbers {
        line.push_str(",0")?;
    }
    read(alloc, line.as_str())
}

#[test]
fn counts_the_numbers_of_a_schedule(rt: HostRuntime) -> Result<(), Fail> {
    let alloc = rt.alloc();
    match long_schedule(alloc, 100_000)? {
        Ok(
            Command::Step {
                plan: _,
                settings: _,
                schedule,
            },
        ) => match schedule.parts() {
            [first, second] => {
                assert_eq!(rt; first.len(), 4);
                assert_eq!(rt; second.len(), 99_996);
            }
            _ => return Err(Fail::from("other parts")),
        },
        _ => return Err(Fail::from("no step")),
    }
    match long_schedule(alloc, 100_001)? {
        Err(WordsFault::Usage) => Ok(()),
        _ => Err(Fail::from("a number too many")),
    }
}
