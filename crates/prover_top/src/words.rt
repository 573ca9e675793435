//! The words of a command line, and the limits that they give.
ghost use Rattle.std.specs.Prelude.{◌≡◌, ◌≤◌, map, length, SomeIff};
ghost use Rattle.std.specs.Str.Parse.{IsNumeral, digits_value};
ghost use Rattle.std.specs.String.{string_bytes};
ghost use Rattle.prover_top.specs.Words.{number_of, with_rounds, with_steps, with_splits, with_workers, with_number, with_option, options_of, limits_given, limits_of};

use case_journal::Limits;

/// The options that were given so far.
#[derive(Clone, Copy, Debug)]
pub struct Given {
    /// The limit of rounds.
    pub rounds: Option<u32>,
    /// The limit of steps.
    pub steps: Option<u32>,
    /// The limit of splits.
    pub splits: Option<u32>,
    /// Whether the number of workers was given.
    pub workers: bool,
}

/// The value of one to seven ASCII digits.
#[tactic(auto, using(crate::proofs::WordLemmas::short_value))]
fn numeral_of(word: &str) -> Option<u32>
    ensures { SomeIff result (IsNumeral 10 word.now × (length word.now ≤ 7)) (digits_value 10 word.now) }
{
    if word.len() > 7 || word.as_bytes().first() == Some(&b'+') {
        return None;
    }
    match word.parse::<u32>() {
        Ok(number) => Some(number),
        Err(_) => None,
    }
}

#[tactic(auto, using(crate::proofs::WordLemmas::number_from))]
fn number_of(word: &str) -> Option<u32>
    ensures { result ≡ number_of word.now }
{
    numeral_of(word)
}

fn with_rounds(given: Given, number: u32) -> Option<Given>
    ensures { result ≡ with_rounds given number }
{
    if given.rounds.is_none() && number <= 1_000_000 {
        return Some(Given {
            rounds: Some(number),
            steps: given.steps,
            splits: given.splits,
            workers: given.workers,
        });
    }
    None
}

fn with_steps(given: Given, number: u32) -> Option<Given>
    ensures { result ≡ with_steps given number }
{
    if given.steps.is_none() && 1 <= number && number <= 1_000_000 {
        return Some(Given {
            rounds: given.rounds,
            steps: Some(number),
            splits: given.splits,
            workers: given.workers,
        });
    }
    None
}

fn with_splits(given: Given, number: u32) -> Option<Given>
    ensures { result ≡ with_splits given number }
{
    if given.splits.is_none() && number <= 10_000 {
        return Some(Given {
            rounds: given.rounds,
            steps: given.steps,
            splits: Some(number),
            workers: given.workers,
        });
    }
    None
}

fn with_workers(given: Given, number: u32) -> Option<Given>
    ensures { result ≡ with_workers given number }
{
    if !given.workers && number == 1 {
        return Some(Given {
            rounds: given.rounds,
            steps: given.steps,
            splits: given.splits,
            workers: true,
        });
    }
    None
}

fn with_number(given: Given, option: &str, number: u32) -> Option<Given>
    ensures { result ≡ with_number given option.now number }
{
    if option == "--rounds" {
        return with_rounds(given, number);
    }
    if option == "--steps" {
        return with_steps(given, number);
    }
    if option == "--splits" {
        return with_splits(given, number);
    }
    if option == "--workers" {
        return with_workers(given, number);
    }
    None
}

fn with_option(given: Given, option: &str, value: &str) -> Option<Given>
    ensures { result ≡ with_option given option.now value.now }
{
    match number_of(value) {
        Some(number) => with_number(given, option, number),
        None => None,
    }
}

fn options(given: Given, words: &[String]) -> Option<Given>
    ensures { result ≡ options_of given (map string_bytes words.now) }
{
    match words {
        [] => Some(given),
        [option, rest @ ..] => match rest {
            [] => None,
            [value, more @ ..] => match with_option(given, option.as_str(), value.as_str()) {
                Some(next) => options(next, more),
                None => None,
            },
        },
    }
}

/// The limits that the options give, with the defaults of those that they don't give.
fn limits_given(given: Given) -> Limits
    ensures { result ≡ limits_given given }
{
    Limits {
        rounds: given.rounds.unwrap_or(10_000),
        steps: given.steps.unwrap_or(100_000),
        splits: given.splits.unwrap_or(1_000),
    }
}

/// The limits, where the words fit: `prove`, then `--rounds` with 0 to 1,000,000 (10,000 where it isn't given),
/// `--steps` with 1 to 1,000,000 (100,000), `--splits` with 0 to 10,000 (1,000) and `--workers` with 1, each at most once,
/// in any order. `None` exactly where they don't fit.
pub fn limits_of(words: &[String]) -> Option<Limits>
    ensures { result ≡ limits_of (map string_bytes words.now) }
{
    let none = Given {
        rounds: None,
        steps: None,
        splits: None,
        workers: false,
    };
    match words {
        [] => None,
        [command, more @ ..] => {
            if command.as_str() != "prove" {
                return None;
            }
            match options(none, more) {
                Some(given) => Some(limits_given(given)),
                None => None,
            }
        }
    }
}
