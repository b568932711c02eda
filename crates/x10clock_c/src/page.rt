//! The page of a rule whose code stands for FILE.

ghost use Rattle.std.specs.Prelude.{◌≡◌, option_map};
ghost use Rattle.x10clock_c.specs.Call.{page_asked, rule_page};

use xk_jobs::{Form, Request};
use xk_rules::rule_text;

/// The page that `explain` is asked for, if it is.
pub(crate) fn rule_page(request: &Request<'_>) -> Option<&'static str>
    ensures { option_map (λ page. page.now) result ≡ rule_page request.now }
{
    match request {
        Request::Job(job) => page_asked(job.command.explanation(), job.form, job.file),
        Request::ByHand(_) => None,
    }
}

/// The same of what an explanation is to be, if one is asked for, and of FILE.
fn page_asked(explanation: Option<bool>, form: Form, file: &str) -> Option<&'static str>
    ensures { option_map (λ page. page.now) result ≡ page_asked explanation form file.now }
{
    let json = explanation?;
    if json {
        return None;
    }
    match form {
        Form::Source => rule_text(file),
        Form::Module => None,
    }
}
