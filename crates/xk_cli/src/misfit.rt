//! Words that don't go together.

ghost use Rattle.std.specs.Prelude.{◌≡◌};

/// The line where the words have an order beside workers.
const EXCLUDED_LINE: &str = "x10clock: --workers and --order exclude each other\n";

/// The line of words that have a seed, and no order by chance.
const SEED_LINE: &str = "x10clock: --seed goes with --order random\n";

/// The line of words that have a number of runs, and no order by chance, or a log.
const RUNS_LINE: &str = "x10clock: --runs goes with --order random, and not with --log\n";

/// The line of words that have a number of processors, and no order by rounds.
const PROCESSORS_LINE: &str = "x10clock: --processors goes with --order greedy\n";

/// The line of words that have a list of outcomes, and an outcome to pick, or a log.
const LIST_LINE: &str = "x10clock: --expect goes without --log and --pick\n";

/// The line of words that have an outcome to pick, and no log.
const PICK_LINE: &str = "x10clock: --pick goes with --log\n";

/// The line of words that have a count, and a list of outcomes, an outcome to pick, a log, or `--json`.
const COUNT_LINE: &str = "x10clock: --count goes without --expect, --json, --log and --pick\n";

/// The line of words that have a page of a log's run and of an outcome's, or of neither.
const PAGE_LINE: &str =
    "x10clock: page takes either LOG or --outcome; --limit goes with --outcome, and --path with LOG\n";

/// The line of words that have `--json` with a run that is told by no value.
const JSON_LINE: &str = "x10clock: --json goes without --order ask and --runs\n";

/// The line of words that have `--rounds` with a picture, a critical path, or a part of the run.
const ROUNDS_LINE: &str = "x10clock: --rounds goes without --path, --svg, --from and --to\n";

/// Why options don't go together.
#[derive(Clone, Copy, Debug, PartialEq, Eq)]
pub enum Misfit {
    /// `--workers` stands beside `--order`.
    OrderAndWorkers,
    /// `--seed` stands without `--order random`.
    SeedAlone,
    /// `--runs` stands without `--order random`, or beside `--log`.
    MisplacedRuns,
    /// `--processors` stands without `--order greedy`.
    ProcessorsAlone,
    /// `--expect` stands beside `--log` or `--pick`.
    MisplacedList,
    /// `--pick` stands without `--log`.
    PickAlone,
    /// `--count` stands beside `--expect`, `--json`, `--log` or `--pick`.
    MisplacedCount,
    /// `page` stands beside both LOG and `--outcome`, or neither; or `--limit` beside LOG, or `--path` beside `--outcome`.
    UnclearPage,
    /// `--json` stands beside `--order ask` or `--runs`.
    MisplacedJson,
    /// `--rounds` stands beside `--path`, `--svg`, `--from` or `--to`.
    MisplacedRounds,
}

impl Misfit {
    ghost use Rattle.xk_cli.specs.Misfits.{line_of};

    /// The line that tells it, for standard error.
    pub fn line(self) -> &'static str
        ensures { result.now ≡ line_of self }
    {
        match self {
            Misfit::OrderAndWorkers => EXCLUDED_LINE,
            Misfit::SeedAlone => SEED_LINE,
            Misfit::MisplacedRuns => RUNS_LINE,
            Misfit::ProcessorsAlone => PROCESSORS_LINE,
            Misfit::MisplacedList => LIST_LINE,
            Misfit::PickAlone => PICK_LINE,
            Misfit::MisplacedCount => COUNT_LINE,
            Misfit::UnclearPage => PAGE_LINE,
            Misfit::MisplacedJson => JSON_LINE,
            Misfit::MisplacedRounds => ROUNDS_LINE,
        }
    }
}
