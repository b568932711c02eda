//! What holds of all answers: nothing here is computed.

ghost use Rattle.std.specs.Prelude.{◌≡◌, ◌≢◌, ◌⊎◌, ℕ, ℤ, Bool, List, true};
ghost use Rattle.xk_answers.specs.declared.job_result.Done.{Done};
ghost use Rattle.xk_serve.specs.Answer.{Answers, IsSaidOf, Reply, Task};
ghost use Rattle.xk_answers.specs.Results.{ComesTo, Doing, Explain, IsTelling, IsText, Run};
ghost use Rattle.xk_answers.specs.Printed.{done_log, done_text};
ghost use Rattle.xk_serve.specs.OneAnswer.{ComesToOne, ExplainFaults, HasOneStatus, IsCharted, IsSameReply, MayChart, MayCheck, PrintsAgain, TellFaults, charting, done_with, replaying};
ghost use Rattle.xk_program.specs.Programs.{Gives};
ghost use Rattle.xk_program.specs.declared.fault.Fault.{Fault};
ghost use Rattle.xk_types.specs.Code.{ModuleValue};
ghost use Rattle.xk_jobs.specs.declared.job.Form.TheVariants as form;
ghost use Rattle.xk_jobs.specs.Tasks.{Way};
ghost use Rattle.xk_jobs.specs.Status.{status_done, status_memory};

/// To a job on a module text there is one answer, want of memory aside: the same status, and the same bytes on every device. Left
/// open are: which walk is told of a refusal of kinds, one of the shortest, and so what `explain` writes to standard output of it;
/// where workers take the steps, which run they take (then standard output and the log are those of some run, but the status and
/// the line of a fault are determined still); and, where outcomes are looked for, in which order they are told or numbered, and
/// whether all are. To a job on a source text there is one answer in the same sense, but that of a text which spells no tree, or
/// has several recursive calls, it is left open which fault is told: the status and the other devices are the same then too. And
/// what a job on a module comes to where nothing stands against it is one, and so is what is told of a program and of its runs:
/// what `explain` says of one that is accepted, its listing, charts, events, lanes and pictures, where things stand, races,
/// tallies; but the page of an outcome, which may be of any run with it.
pub fn one_answer()
    ensures answer { (t : Task) (bytes logged : List ℕ) (r s : Reply) → t.form ≡ form.Module
        → Answers t bytes logged r → Answers t bytes logged s
        → r.status ≢ status_memory → s.status ≢ status_memory → IsSameReply t.doing r s }
    ensures source { (t : Task) (bytes logged : List ℕ) (r s : Reply) → t.form ≡ form.Source
        → Answers t bytes logged r → Answers t bytes logged s
        → r.status ≢ status_memory → s.status ≢ status_memory
        → IsSameReply t.doing r s ⊎ TellFaults t bytes r s }
    ensures done { (what : Doing) (m : ModuleValue) (args : List ℤ) (logged : List ℕ) (d e : Done)
        → ComesToOne what → ComesTo what m args logged d → ComesTo what m args logged e
        → (done_text d ≡ done_text e) × (done_log d ≡ done_log e) }
    ensures told { (t : Task) (bytes logged : List ℕ) (m : ModuleValue) (d e : Done)
        → HasOneStatus t.doing → Gives t.form bytes m
        → IsText (IsTelling t.doing t.form t.file bytes m t.arguments logged) d
        → IsText (IsTelling t.doing t.form t.file bytes m t.arguments logged) e
        → (done_text d ≡ done_text e) × (done_log d ≡ done_log e) }
{}

/// What `explain` says is one: of a program that is accepted, and of a fault. Where two answers tell one fault, all that
/// they write is the same. Left open is which fault is told, as in `one_answer`: so the answers are two only where that is.
/// And `check` may answer with the status that `explain` has, and with the same line on standard error, or none.
pub fn explanations()
    ensures explained { (t : Task) (json : Bool) (bytes logged : List ℕ) (r s : Reply)
        → t.doing ≡ Explain json → Answers t bytes logged r → Answers t bytes logged s
        → r.status ≢ status_memory → s.status ≢ status_memory
        → (r.out ≡ s.out) ⊎ ExplainFaults t bytes r s }
    ensures said { (t : Task) (bytes : List ℕ) (f : Fault) (a b : List ℕ)
        → IsSaidOf t bytes f a → IsSaidOf t bytes f b → a ≡ b }
    ensures checked { (t : Task) (json : Bool) (bytes logged : List ℕ) (r : Reply)
        → t.doing ≡ Explain json → Answers t bytes logged r → MayCheck t bytes logged r }
{}

/// The log that `run` has written tells that run. Of the same FILE, the same arguments and that log `replay` may print what the run
/// printed, with the same number of steps, but for how many rounds there were, and `chart` the chart of that run; and they answer nothing
/// else, want of memory aside.
pub fn a_log_tells_its_run()
    ensures replayed { (t : Task) (way : Way) (bytes logged : List ℕ) (r : Reply)
        → t.doing ≡ Run way true → Answers t bytes logged r → r.status ≡ status_done
        → (again : List ℕ) × PrintsAgain way r.out again
        × Answers (replaying t) bytes r.log (done_with again) }
    ensures replayed_alone { (t : Task) (way : Way) (bytes logged : List ℕ) (r s : Reply)
        → t.doing ≡ Run way true
        → Answers t bytes logged r → r.status ≡ status_done
        → Answers (replaying t) bytes r.log s → s.status ≢ status_memory
        → (again : List ℕ) × PrintsAgain way r.out again × (s ≡ done_with again) }
    ensures charted { (t : Task) (way : Way) (bytes logged : List ℕ) (r : Reply)
        → t.doing ≡ Run way true → Answers t bytes logged r → r.status ≡ status_done
        → MayChart t bytes r.log }
    ensures charted_alone { (t : Task) (way : Way) (bytes logged : List ℕ) (r s : Reply)
        → t.doing ≡ Run way true
        → Answers t bytes logged r → r.status ≡ status_done
        → Answers (charting t) bytes r.log s → s.status ≢ status_memory
        → IsCharted t bytes r.log s }
{}
