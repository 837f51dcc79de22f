//! The words with which the program is called.

ghost use Rattle.std.specs.Prelude.{◌≡◌, ◌≤◌, ◌^◌, ◌-◌, map, IfSome};
ghost use Rattle.std.specs.Option.{option_map};
ghost use Rattle.broker_app.specs.Words.{run_form, lanes_form, every_of, pod_form, pod_words, handover_form, delays_of, servers_of, explore_form, stress_form, two_words, three_words, short_words, four_words, five_words, six_words, seven_words, more_words, few_words, form};
ghost use Rattle.run_words.specs.Pairs.{are_pairs};
ghost use Rattle.hist_model.specs.Words.{number_between};
ghost use Rattle.play_words.specs.Handovers.{IsAfterSteps};
ghost use Rattle.run_words.specs.Pairs.{texts};
ghost use Rattle.broker_app.specs.Forms.{IsInRange, form_of};

use plain_words::number_between;

/// What one thread can do alone.
#[derive(Clone, Copy, Debug)]
pub enum Job<'a> {
    /// Play the schedule of a script: the names of the policy's and the script's files.
    Play {
        policy: &'a str,
        script: &'a str,
    },
    /// Play generated input, of 1 to 4000 calls.
    Stress {
        from: u64,
        count: u32,
    },
    /// Check a report: the names of the files of the policy, the script and the report.
    AuditCheck {
        policy: &'a str,
        script: &'a str,
        report: &'a str,
    },
    /// Play the schedule of a script, and replace the worker that took the last step after each so many steps of workers, 1 to
    /// 200,000: the names of the policy's and the script's files.
    Handover {
        policy: &'a str,
        script: &'a str,
        every: u32,
    },
    /// Explore what a script can come to, by workers from 0 to this one, at most 15, and with so many delays at most, or without a
    /// bound: the names of the policy's and the script's files.
    Explore {
        policy: &'a str,
        script: &'a str,
        workers: u8,
        delays: Option<u64>,
    },
    /// Step a script as the requests on the standard input ask for: the names of the policy's and the script's files.
    Step {
        policy: &'a str,
        script: &'a str,
    },
    /// Judge whether the workers of a script's schedule mediate: the names of the policy's and the script's files.
    Judge {
        policy: &'a str,
        script: &'a str,
    },
    /// Explain which rule decides each call: the names of the files of the policy and the calls.
    Explain {
        policy: &'a str,
        calls: &'a str,
    },
    /// Compare two policies, of which one would take the other's place: the names of their files, and of the file of a script whose
    /// filters are asked, if one is named.
    Compare {
        old: &'a str,
        new: &'a str,
        script: Option<&'a str>,
    },
    /// Check claims about a policy: the names of the files of the policy and the claims.
    Check {
        policy: &'a str,
        claims: &'a str,
    },
    /// Find what is likely a mistake in a policy: the name of its file.
    Lint {
        policy: &'a str,
    },
}

/// A form of the words.
#[derive(Clone, Copy, Debug)]
pub enum Form<'a> {
    Job(Job<'a>),
    /// Run a script with threads: the names of the policy's and the script's files, and two numbers from 0 to 16, of the hands
    /// that serve notifications and of those that step tasks; and after how many steps of workers, 1 to 200,000, the one that took the
    /// last is replaced, if any is.
    Run {
        policy: &'a str,
        script: &'a str,
        workers: u8,
        cpus: u8,
        every: Option<u32>,
    },
    /// Run a script by lanes: the names of the policy's and the script's files, a number from 0 to 16, of the hands that step tasks,
    /// and after how many steps of workers one is replaced.
    Lanes {
        policy: &'a str,
        script: &'a str,
        cpus: u8,
        every: Option<u32>,
    },
    /// Serve containers side by side: a number from 0 to 16 of the threads that serve notifications, or none where lanes serve them,
    /// another of those that step tasks, after how many steps of a container's workers one is replaced, and the names of 1 to 8 pairs
    /// of files, each a policy's and a script's, one after another.
    Pod {
        workers: Option<u8>,
        cpus: u8,
        every: Option<u32>,
        pairs: &'a [String],
    },
}

/// After how many steps of workers one is replaced, 1 to 200,000, where the word before the number says so.
fn every_of(word: &str, count: &str) -> Option<Option<u32>>
    ensures meant { result ≡ every_of word.now count.now }
    ensures range { IfSome result IsAfterSteps }
{
    if word.as_bytes() != b"every".as_slice() {
        return None;
    }
    let every = number_between(count.as_bytes(), 1, 200_000)?;
    Some(Some(every as u32))
}

fn run_form<'a>(
    policy: &'a str,
    script: &'a str,
    workers: &str,
    cpus: &str,
    every: Option<Option<u32>>,
) -> Option<Form<'a>>
    requires { IfSome every IsAfterSteps }
    ensures meant { option_map form_of result ≡ run_form policy.now script.now (number_between 0 16 workers.now) (number_between 0 16 cpus.now) every }
    ensures range { IfSome result (λ f. IsInRange f) }
{
    let workers = number_between(workers.as_bytes(), 0, 16)?;
    let cpus = number_between(cpus.as_bytes(), 0, 16)?;
    let every = every?;
    Some(Form::Run {
        policy,
        script,
        workers: workers as u8,
        cpus: cpus as u8,
        every,
    })
}

fn lanes_form<'a>(
    policy: &'a str,
    script: &'a str,
    cpus: &str,
    every: Option<Option<u32>>,
) -> Option<Form<'a>>
    requires { IfSome every IsAfterSteps }
    ensures meant { option_map form_of result ≡ lanes_form policy.now script.now (number_between 0 16 cpus.now) every }
    ensures range { IfSome result (λ f. IsInRange f) }
{
    let cpus = number_between(cpus.as_bytes(), 0, 16)?;
    let every = every?;
    Some(Form::Lanes {
        policy,
        script,
        cpus: cpus as u8,
        every,
    })
}

/// Whether so many words are the names of 1 to 8 pairs of files.
fn are_pairs(count: usize) -> bool
    ensures { result ≡ are_pairs count }
{
    2 <= count && count <= 16 && count % 2 == 0
}

/// How many workers serve, 0 to 16, or none where lanes do.
fn servers_of(word: &str) -> Option<Option<u8>>
    ensures meant { result ≡ servers_of word.now }
    ensures range { IfSome result (λ workers. IfSome workers (λ w. w ≤ 16)) }
{
    if word.as_bytes() == b"lanes".as_slice() {
        return Some(None);
    }
    let workers = number_between(word.as_bytes(), 0, 16)?;
    Some(Some(workers as u8))
}

fn pod_form<'a>(
    workers: &str,
    cpus: &str,
    every: Option<Option<u32>>,
    pairs: &'a [String],
) -> Option<Form<'a>>
    requires { IfSome every IsAfterSteps }
    ensures meant { option_map form_of result ≡ pod_form (servers_of workers.now) (number_between 0 16 cpus.now) every (texts pairs.now) }
    ensures range { IfSome result (λ f. IsInRange f) }
{
    let workers = servers_of(workers)?;
    let cpus = number_between(cpus.as_bytes(), 0, 16)?;
    let every = every?;
    if !are_pairs(pairs.len()) {
        return None;
    }
    Some(Form::Pod {
        workers,
        cpus: cpus as u8,
        every,
        pairs,
    })
}

/// The form of a pod, by the words after CPUS: `every` and a number, if workers are replaced, and the names.
fn pod_words<'a>(workers: &str, cpus: &str, rest: &'a [String]) -> Option<Form<'a>>
    ensures meant { option_map form_of result ≡ pod_words (servers_of workers.now) (number_between 0 16 cpus.now) (texts rest.now) }
    ensures range { IfSome result (λ f. IsInRange f) }
{
    if let [word, count, pairs @ ..] = rest {
        if word.as_bytes() == b"every".as_slice() {
            let every = every_of(word.as_str(), count.as_str());
            return pod_form(workers, cpus, every, pairs);
        }
        return pod_form(workers, cpus, Some(None), rest);
    }
    pod_form(workers, cpus, Some(None), rest)
}

fn handover_form<'a>(policy: &'a str, script: &'a str, every: &str) -> Option<Form<'a>>
    ensures meant { option_map form_of result ≡ handover_form policy.now script.now (number_between 1 200000 every.now) }
    ensures range { IfSome result (λ f. IsInRange f) }
{
    let every = number_between(every.as_bytes(), 1, 200_000)?;
    Some(Form::Job(Job::Handover {
        policy,
        script,
        every: every as u32,
    }))
}

/// A bound of delays, 0 to 8, or none where all are asked for.
fn delays_of(word: &str) -> Option<Option<u64>>
    ensures { result ≡ delays_of word.now }
{
    if word.as_bytes() == b"all".as_slice() {
        return Some(None);
    }
    let delays = number_between(word.as_bytes(), 0, 8)?;
    Some(Some(delays))
}

fn explore_form<'a>(
    policy: &'a str,
    script: &'a str,
    workers: &str,
    delays: &str,
) -> Option<Form<'a>>
    ensures meant { option_map form_of result ≡ explore_form policy.now script.now (number_between 0 15 workers.now) (delays_of delays.now) }
    ensures range { IfSome result (λ f. IsInRange f) }
{
    let workers = number_between(workers.as_bytes(), 0, 15)?;
    let delays = delays_of(delays)?;
    Some(Form::Job(Job::Explore {
        policy,
        script,
        workers: workers as u8,
        delays,
    }))
}

fn stress_form<'a>(from: &str, count: &str) -> Option<Form<'a>>
    ensures meant { option_map form_of result ≡ stress_form (number_between 0 (2 ^ 64 - 1) from.now) (number_between 1 4000 count.now) }
    ensures range { IfSome result (λ f. IsInRange f) }
{
    let from = number_between(from.as_bytes(), 0, u64::MAX)?;
    let count = number_between(count.as_bytes(), 1, 4000)?;
    Some(Form::Job(Job::Stress {
        from,
        count: count as u32,
    }))
}

fn two_words<'a>(command: &str, a: &'a str) -> Option<Form<'a>>
    ensures meant { option_map form_of result ≡ two_words command.now a.now }
    ensures range { IfSome result (λ f. IsInRange f) }
{
    if command.as_bytes() == b"lint".as_slice() {
        Some(Form::Job(Job::Lint { policy: a }))
    } else {
        None
    }
}

fn three_words<'a>(command: &str, a: &'a str, b: &'a str) -> Option<Form<'a>>
    ensures meant { option_map form_of result ≡ three_words command.now a.now b.now }
    ensures range { IfSome result (λ f. IsInRange f) }
{
    if command.as_bytes() == b"play".as_slice() {
        Some(Form::Job(Job::Play {
            policy: a,
            script: b,
        }))
    } else if command.as_bytes() == b"stress".as_slice() {
        stress_form(a, b)
    } else if command.as_bytes() == b"step".as_slice() {
        Some(Form::Job(Job::Step {
            policy: a,
            script: b,
        }))
    } else if command.as_bytes() == b"judge".as_slice() {
        Some(Form::Job(Job::Judge {
            policy: a,
            script: b,
        }))
    } else if command.as_bytes() == b"explain".as_slice() {
        Some(Form::Job(Job::Explain {
            policy: a,
            calls: b,
        }))
    } else if command.as_bytes() == b"compare".as_slice() {
        Some(Form::Job(Job::Compare {
            old: a,
            new: b,
            script: None,
        }))
    } else if command.as_bytes() == b"check".as_slice() {
        Some(Form::Job(Job::Check {
            policy: a,
            claims: b,
        }))
    } else {
        None
    }
}

fn four_words<'a>(command: &str, a: &'a str, b: &'a str, c: &'a str) -> Option<Form<'a>>
    ensures meant { option_map form_of result ≡ four_words command.now a.now b.now c.now }
    ensures range { IfSome result (λ f. IsInRange f) }
{
    if command.as_bytes() == b"audit-check".as_slice() {
        Some(Form::Job(Job::AuditCheck {
            policy: a,
            script: b,
            report: c,
        }))
    } else if command.as_bytes() == b"lanes".as_slice() {
        lanes_form(a, b, c, Some(None))
    } else if command.as_bytes() == b"handover".as_slice() {
        handover_form(a, b, c)
    } else if command.as_bytes() == b"compare".as_slice() {
        Some(Form::Job(Job::Compare {
            old: a,
            new: b,
            script: Some(c),
        }))
    } else {
        None
    }
}

fn five_words<'a>(command: &str, a: &'a str, b: &'a str, c: &str, d: &str) -> Option<Form<'a>>
    ensures meant { option_map form_of result ≡ five_words command.now a.now b.now c.now d.now }
    ensures range { IfSome result (λ f. IsInRange f) }
{
    if command.as_bytes() == b"run".as_slice() {
        run_form(a, b, c, d, Some(None))
    } else if command.as_bytes() == b"explore".as_slice() {
        explore_form(a, b, c, d)
    } else {
        None
    }
}

fn six_words<'a>(
    command: &str,
    a: &'a str,
    b: &'a str,
    c: &str,
    d: &str,
    e: &str,
) -> Option<Form<'a>>
    ensures meant { option_map form_of result ≡ six_words command.now a.now b.now c.now d.now e.now }
    ensures range { IfSome result (λ f. IsInRange f) }
{
    if command.as_bytes() == b"lanes".as_slice() {
        lanes_form(a, b, c, every_of(d, e))
    } else {
        None
    }
}

fn seven_words<'a>(
    command: &str,
    a: &'a str,
    b: &'a str,
    c: &str,
    d: &str,
    e: &str,
    f: &str,
) -> Option<Form<'a>>
    ensures meant { option_map form_of result ≡ seven_words command.now a.now b.now c.now d.now e.now f.now }
    ensures range { IfSome result (λ f. IsInRange f) }
{
    if command.as_bytes() == b"run".as_slice() {
        run_form(a, b, c, d, every_of(e, f))
    } else {
        None
    }
}

/// The form of six or seven words, but `pod`'s.
fn more_words(words: &[String]) -> Option<Form<'_>>
    ensures meant { option_map form_of result ≡ more_words (texts words.now) }
    ensures range { IfSome result (λ f. IsInRange f) }
{
    if let [command, a, b, c, d, e] = words {
        return six_words(
            command.as_str(),
            a.as_str(),
            b.as_str(),
            c.as_str(),
            d.as_str(),
            e.as_str(),
        );
    }
    if let [command, a, b, c, d, e, f] = words {
        return seven_words(
            command.as_str(),
            a.as_str(),
            b.as_str(),
            c.as_str(),
            d.as_str(),
            e.as_str(),
            f.as_str(),
        );
    }
    None
}

/// The form of three to seven words, but `pod`'s.
fn few_words(words: &[String]) -> Option<Form<'_>>
    ensures meant { option_map form_of result ≡ few_words (texts words.now) }
    ensures range { IfSome result (λ f. IsInRange f) }
{
    if let [command, a, b] = words {
        return three_words(command.as_str(), a.as_str(), b.as_str());
    }
    if let [command, a, b, c] = words {
        return four_words(command.as_str(), a.as_str(), b.as_str(), c.as_str());
    }
    if let [command, a, b, c, d] = words {
        return five_words(
            command.as_str(),
            a.as_str(),
            b.as_str(),
            c.as_str(),
            d.as_str(),
        );
    }
    more_words(words)
}

/// The form of two words.
fn short_words(words: &[String]) -> Option<Form<'_>>
    ensures meant { option_map form_of result ≡ short_words (texts words.now) }
    ensures range { IfSome result (λ f. IsInRange f) }
{
    if let [command, a] = words {
        return two_words(command.as_str(), a.as_str());
    }
    None
}

/// The form of the words, if they have one.
pub fn read_form(words: &[String]) -> Option<Form<'_>>
    ensures meant { option_map form_of result ≡ form (texts words.now) }
    ensures range { IfSome result (λ f. IsInRange f) }
{
    if let [command, workers, cpus, rest @ ..] = words {
        if command.as_bytes() == b"pod".as_slice() {
            return pod_words(workers.as_str(), cpus.as_str(), rest);
        }
        return few_words(words);
    }
    short_words(words)
}
