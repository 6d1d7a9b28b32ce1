//! What the words of a call ask for.

ghost use Rattle.std.specs.Prelude.{◌≡◌, None, Some, MatchOption};
ghost use Rattle.lu_cli.specs.Words.{verb_of, is_plan_word, asked, asked_of};

/// What is done with a plan.
#[derive(Clone, Copy, Debug, PartialEq, Eq)]
pub enum Verb {
    /// Its servers run by its schedule, and the transcript is written.
    Run,
    /// Its files are loaded, and `ok` is written.
    Check,
}

/// What is done, with which plan.
#[derive(Clone, Copy)]
pub struct Command<'a> {
    pub verb: Verb,
    pub plan: &'a str,
}

fn verb_of(word: &str) -> Option<Verb>
    ensures { result ≡ verb_of word.now }
{
    match word {
        "run" => Some(Verb::Run),
        "check" => Some(Verb::Check),
        _ => None,
    }
}

fn is_plan_word(word: &[u8]) -> bool
    ensures { result ≡ is_plan_word word.now }
{
    match word {
        [] => false,
        [first, ..] => *first != b'-',
    }
}

/// The command of the words, where they are an accepted form.
pub fn command_of(words: &[String]) -> Option<Command<'_>>
    ensures { MatchOption result (asked_of words.now ≡ None) (λ c. asked_of words.now ≡ Some (asked c.verb c.plan.now)) }
{
    let [command, plan] = words else {
        return None;
    };
    let verb = verb_of(command.as_str())?;
    let plan = plan.as_str();
    if is_plan_word(plan.as_bytes()) {
        Some(Command { verb, plan })
    } else {
        None
    }
}
