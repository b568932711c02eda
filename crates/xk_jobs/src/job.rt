//! What the words ask for.

ghost use Rattle.std.specs.Prelude.{◌≡◌, ◌≤◌, option_map};
ghost use Rattle.xk_jobs.specs.WorkerCount.{count_within, most_workers, some_processors};

/// What is to be done with FILE.
#[derive(Clone, Copy, Debug, PartialEq, Eq)]
pub enum Command<'a> {
    /// `check`: say whether FILE is accepted, and with which bounds.
    Check,
    /// `compile`: print the text of the module that FILE gives, accepted or not.
    Compile,
    /// `explain`: say whether FILE is accepted, and what its bounds are made of, and else where and why it isn't, and how that is usually repaired.
    Explain {
        /// `--json`: as a JSON value.
        json: bool,
    },
    /// `listing`: print the instructions of the module that FILE gives, accepted or not, and where each comes from.
    Listing,
    /// `run`: run FILE, and print what it prints.
    Run {
        /// Who takes the run's steps, where that was given.
        drive: Option<Drive>,
        /// Where the run's log goes, if anywhere: a file's path.
        log: Option<&'a str>,
    },
    /// `run --order random --runs K`: run FILE so often by chance, and tell how often what was printed.
    Tally {
        /// What the first run is drawn from; each further one from the next number, and 0 follows the greatest.
        seed: u64,
        /// How many runs there are: at least 1.
        runs: u64,
    },
    /// `replay`: run FILE again as a log has it, and print what it prints.
    Replay {
        /// The log's path.
        log: &'a str,
    },
    /// `chart`: print when the clocks advanced, and who was registered on them, in the run of FILE that a log has.
    Chart {
        /// The log's path.
        log: &'a str,
    },
    /// `events`: print what others see of the steps of the run of FILE that a log has, and where in FILE each comes from.
    Events {
        /// The log's path.
        log: &'a str,
    },
    /// `lanes`: draw the same with a lane for each activity.
    Lanes {
        /// The log's path.
        log: &'a str,
        /// `--from`: the first step that is drawn, counted from 1, where that was given.
        from: Option<u64>,
        /// `--to`: the last one, where that was given.
        to: Option<u64>,
        /// `--svg`: as an SVG picture.
        svg: bool,
        /// `--path`: with the round of each step, and a critical path.
        path: bool,
    },
    /// `lanes --rounds`: draw the run of FILE that a log has by the rounds that `span` tells of.
    Rounds {
        /// The log's path.
        log: &'a str,
    },
    /// `page`: make an HTML page of the run of FILE that a log has, to go through it step by step.
    Page {
        /// The log's path.
        log: &'a str,
        /// `--from`, as for `lanes`.
        from: Option<u64>,
        /// `--to`, as for `lanes`.
        to: Option<u64>,
        /// `--path`: with the round of each step, and a critical path.
        path: bool,
    },
    /// `page --outcome`: make such a page of a run of FILE with one of its outcomes.
    OutcomePage {
        /// The outcome, counted from 1 as `outcomes` counts them.
        pick: u64,
        /// `--limit`, as for `outcomes`.
        limit: Option<u64>,
        /// `--from`, as for `lanes`.
        from: Option<u64>,
        /// `--to`, as for `lanes`.
        to: Option<u64>,
    },
    /// `where`: print where in FILE each activity stands behind the steps that a log has.
    Where {
        /// The log's path.
        log: &'a str,
        /// `--at`: the step after which things are told, where that was given; 0 is before the first.
        at: Option<u64>,
    },
    /// `span`: print how much of the run of FILE that a log has can go on side by side, and what takes longest.
    Span {
        /// The log's path.
        log: &'a str,
    },
    /// `why`: print what a step of the run of FILE that a log has rests on.
    Why {
        /// The log's path.
        log: &'a str,
        /// The step, counted from 1.
        step: u64,
    },
    /// `races`: print which steps of a run of FILE race with one another.
    Races {
        /// The path of the log of the run that is looked at, where that was given.
        log: Option<&'a str>,
    },
    /// `outcomes`: print all that FILE can print.
    Outcomes {
        /// `--limit`: the search stops as soon as more worlds are kept or so many outcomes are told, where that was given.
        limit: Option<u64>,
        /// `--pick`: the outcome whose log is written, counted from 1; the first where none was given.
        pick: Option<u64>,
        /// Where the log of a run with that outcome goes, if anywhere: a file's path.
        log: Option<&'a str>,
        /// `--sets`: outcomes that differ in the order of their numbers alone are one.
        sets: bool,
    },
    /// `outcomes --count`: print how many outcomes FILE has.
    Count {
        /// `--limit`, as for `outcomes`.
        limit: Option<u64>,
        /// `--sets`, as for `outcomes`.
        sets: bool,
    },
    /// `outcomes --expect`: say whether all that FILE can print is in a list.
    Expected {
        /// The list's path.
        list: &'a str,
        /// `--limit`, as for `outcomes`.
        limit: Option<u64>,
        /// `--sets`, as for `outcomes`.
        sets: bool,
    },
    /// `--json`: tell this as JSON, a value on each line.
    Json(Values<'a>),
}

/// What may be told as JSON. What its parts mean, the command of the same name says.
#[derive(Clone, Copy, Debug, PartialEq, Eq)]
pub enum Values<'a> {
    /// `run --json`: what the run of FILE prints, and how long it was, as one value.
    Run {
        drive: Option<Drive>,
        log: Option<&'a str>,
    },
    /// `events --json`: what others see of the steps of the run of FILE that a log has, a value each.
    Events {
        log: &'a str,
    },
    /// `races --json`: which steps of a run of FILE race with one another, as one value.
    Races {
        log: Option<&'a str>,
    },
    /// `where --json`: where in FILE each activity stands behind the steps that a log has, as one value.
    Where {
        log: &'a str,
        at: Option<u64>,
    },
    /// `span --json`: how much of the run of FILE that a log has can go on side by side, and what takes longest, as one value.
    Span {
        log: &'a str,
    },
    /// `outcomes --json`: all that FILE can print, as one value.
    Outcomes {
        limit: Option<u64>,
        pick: Option<u64>,
        log: Option<&'a str>,
        sets: bool,
    },
    /// `outcomes --expect --json`: whether all that FILE can print is in a list, as one value.
    Expected {
        list: &'a str,
        limit: Option<u64>,
        sets: bool,
    },
}

impl<'a> Values<'a> {
    ghost use Rattle.xk_jobs.specs.CommandAnswers.{have_places};
    ghost use Rattle.xk_jobs.specs.CommandFiles.{values_read, values_written};

    /// The path of the log or the list of outcomes that is read, if one is.
    fn read_path(&self) -> Option<&'a str>
        ensures { option_map (λ path. path.now) result ≡ values_read self.now }
    {
        match *self {
            Values::Events { log } | Values::Where { log, .. } | Values::Span { log } => Some(log),
            Values::Races { log } => log,
            Values::Expected { list, .. } => Some(list),
            Values::Run { .. } | Values::Outcomes { .. } => None,
        }
    }

    /// The path of the log that is written, if one is.
    fn written_path(&self) -> Option<&'a str>
        ensures { option_map (λ path. path.now) result ≡ values_written self.now }
    {
        match *self {
            Values::Run { log, .. } | Values::Outcomes { log, .. } => log,
            Values::Events { .. }
            | Values::Races { .. }
            | Values::Where { .. }
            | Values::Span { .. }
            | Values::Expected { .. } => None,
        }
    }

    /// Whether they have the lines of a source text.
    fn have_places(&self) -> bool
        ensures { result ≡ have_places self.now }
    {
        match *self {
            Values::Events { .. }
            | Values::Races { .. }
            | Values::Where { .. }
            | Values::Span { .. } => true,
            Values::Run { .. } | Values::Outcomes { .. } | Values::Expected { .. } => false,
        }
    }
}

impl<'a> Command<'a> {
    ghost use Rattle.xk_jobs.specs.CommandAnswers.{explanation, shows_origins};
    ghost use Rattle.xk_jobs.specs.CommandFiles.{read_path, written_path};

    /// The path of the log or the list of outcomes that is read beside FILE, if one is.
    pub fn read_path(&self) -> Option<&'a str>
        ensures { option_map (λ path. path.now) result ≡ read_path self.now }
    {
        match *self {
            Command::Replay { log }
            | Command::Chart { log }
            | Command::Events { log }
            | Command::Lanes { log, .. }
            | Command::Rounds { log }
            | Command::Page { log, .. }
            | Command::Where { log, .. }
            | Command::Span { log }
            | Command::Why { log, .. } => Some(log),
            Command::Expected { list, .. } => Some(list),
            Command::Races { log } => log,
            Command::Json(values) => values.read_path(),
            Command::Check
            | Command::Compile
            | Command::Explain { .. }
            | Command::Listing
            | Command::Run { .. }
            | Command::Tally { .. }
            | Command::OutcomePage { .. }
            | Command::Outcomes { .. }
            | Command::Count { .. } => None,
        }
    }

    /// The path of the log that is written, if one is.
    pub fn written_path(&self) -> Option<&'a str>
        ensures { option_map (λ path. path.now) result ≡ written_path self.now }
    {
        match *self {
            Command::Run { log, .. } | Command::Outcomes { log, .. } => log,
            Command::Json(values) => values.written_path(),
            Command::Check
            | Command::Compile
            | Command::Explain { .. }
            | Command::Listing
            | Command::Tally { .. }
            | Command::Replay { .. }
            | Command::Chart { .. }
            | Command::Events { .. }
            | Command::Lanes { .. }
            | Command::Rounds { .. }
            | Command::Page { .. }
            | Command::OutcomePage { .. }
            | Command::Where { .. }
            | Command::Span { .. }
            | Command::Why { .. }
            | Command::Races { .. }
            | Command::Count { .. }
            | Command::Expected { .. } => None,
        }
    }

    /// Of `explain`, whether it is as a JSON value; of any other command none.
    pub fn explanation(&self) -> Option<bool>
        ensures { result ≡ explanation self.now }
    {
        match *self {
            Command::Explain { json } => Some(json),
            Command::Check
            | Command::Compile
            | Command::Listing
            | Command::Run { .. }
            | Command::Tally { .. }
            | Command::Replay { .. }
            | Command::Chart { .. }
            | Command::Events { .. }
            | Command::Lanes { .. }
            | Command::Rounds { .. }
            | Command::Page { .. }
            | Command::OutcomePage { .. }
            | Command::Where { .. }
            | Command::Span { .. }
            | Command::Why { .. }
            | Command::Races { .. }
            | Command::Outcomes { .. }
            | Command::Count { .. }
            | Command::Expected { .. }
            | Command::Json(_) => None,
        }
    }

    /// Whether what it prints has the lines of a source text, from which steps or instructions come.
    pub fn shows_origins(&self) -> bool
        ensures { result ≡ shows_origins self.now }
    {
        match *self {
            Command::Explain { .. }
            | Command::Listing
            | Command::Events { .. }
            | Command::Lanes { .. }
            | Command::Rounds { .. }
            | Command::Page { .. }
            | Command::OutcomePage { .. }
            | Command::Where { .. }
            | Command::Span { .. }
            | Command::Why { .. }
            | Command::Races { .. } => true,
            Command::Json(values) => values.have_places(),
            Command::Check
            | Command::Compile
            | Command::Run { .. }
            | Command::Tally { .. }
            | Command::Replay { .. }
            | Command::Chart { .. }
            | Command::Outcomes { .. }
            | Command::Count { .. }
            | Command::Expected { .. } => false,
        }
    }
}

/// What stands in FILE.
#[derive(Clone, Copy, Debug, PartialEq, Eq)]
pub enum Form {
    /// A source text.
    Source,
    /// `--module`: a module text.
    Module,
}

/// Who takes the steps of a run.
#[derive(Clone, Copy, Debug, PartialEq, Eq)]
pub enum Drive {
    /// `--order`: whom the order names.
    Order(Order),
    /// `--order greedy`: by rounds whoever can take a step when the round begins, or so many of these as there are processors,
    /// where that was given.
    Greedy(Option<Processors>),
    /// `--workers`: worker threads, whoever comes first.
    Workers(Workers),
}

/// Who takes the next step of a run.
#[derive(Clone, Copy, Debug, PartialEq, Eq)]
pub enum Order {
    /// `first`: the least enabled activity.
    First,
    /// `last`: the greatest.
    Last,
    /// `round`: the least of greater number than the one taken before, else the least of all.
    Round,
    /// `random`: by chance, drawn from this seed.
    Random(u64),
}

/// The most worker threads.
pub const MOST_WORKERS: u32 = 64;

/// A number of worker threads, from 1 to 64.
#[derive(Clone, Copy, Debug, PartialEq, Eq)]
pub struct Workers {
    count: u32,
    ghost some: { 1 ≤ count },
    ghost few: { count ≤ most_workers },
}

impl Workers {
    /// So many workers. None where that isn't from 1 to 64.
    pub fn new(count: u32) -> Option<Workers>
        ensures { option_map (λ w. w.count) result ≡ count_within count }
    {
        if count < 1 || MOST_WORKERS < count {
            return None;
        }
        Some(Workers { count })
    }

    /// How many they are.
    pub fn count(self) -> u32
        ensures same { result ≡ self.count }
        ensures some { 1 ≤ result }
        ensures few { result ≤ most_workers }
    {
        self.count
    }
}

/// A number of processors: at least 1.
#[derive(Clone, Copy, Debug, PartialEq, Eq)]
pub struct Processors {
    count: u64,
    ghost some: { 1 ≤ count },
}

impl Processors {
    /// So many processors. None where there is none.
    pub fn new(count: u64) -> Option<Processors>
        ensures { option_map (λ p. p.count) result ≡ some_processors count }
    {
        if count < 1 {
            return None;
        }
        Some(Processors { count })
    }

    /// How many they are.
    pub fn count(self) -> u64
        ensures same { result ≡ self.count }
        ensures some { 1 ≤ result }
    {
        self.count
    }
}

/// One command on one file: what the program does by itself.
#[derive(Debug, Drop)]
pub struct Job<'a> {
    pub command: Command<'a>,
    pub form: Form,
    /// The file's path; `-` is standard input. Of `explain` it may be the code of a rule.
    pub file: &'a str,
    /// `--arg`: the numbers that main is given, in order. `check`, `compile`, `explain` and `listing` are given none.
    pub arguments: Vec<i64>,
}

/// `run --order ask`: a run of one file, by a person who is asked for its order.
#[derive(Debug, Drop)]
pub struct HandRun<'a> {
    pub form: Form,
    /// The file's path; standard input has the answers.
    pub file: &'a str,
    /// `--arg`: the numbers that main is given, in order.
    pub arguments: Vec<i64>,
    /// Where the run's log goes, if anywhere: a file's path.
    pub log: Option<&'a str>,
}

/// What the words ask for.
#[derive(Debug, Drop)]
pub enum Request<'a> {
    /// What the program does by itself.
    Job(Job<'a>),
    /// A run whose order a person is asked for.
    ByHand(HandRun<'a>),
}
