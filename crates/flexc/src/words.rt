// The words of the command line.

ghost use Rattle.std.specs.Prelude.{◌≡◌, ◌≤◌, ◌↔◌, IsTrue, MatchOption};
ghost use Rattle.flexc.specs.Words.{AreWords, IsDigit, IsEnding, IsNoCommand, IsNotPlain, IsNotWithTurns, IsNumber, IsPlain, IsWithTurns, number_behind, texts, turns};

/// The words of `run`.
#[derive(Clone, Copy)]
pub struct Run<'a> {
    /// The name of the script.
    pub script: &'a str,
    /// The name of the SWF file to be written.
    pub out: &'a str,
    /// The number of turns of the play.
    pub turns: u32,
    /// The name of the main source.
    pub main: &'a str,
}

/// The number of turns where the words say none.
const TURNS: u32 = 1_000_000;

/// The greatest number of turns that words may say.
const MOST_TURNS: u64 = 1_000_000_000;

/// The greatest number of digits of a number of turns.
const MOST_DIGITS: usize = 10;

/// Reads the words `run --script S --out O MAIN` or `run --script S --out O --turns N MAIN`, in
/// which N is 1 to 10 decimal digits with a value of at most 1,000,000,000; no other list of words
/// is a command. This project's own.
pub fn read_words(words: &[String]) -> Option<Run<'_>>
    ensures { MatchOption result (IsNoCommand (texts words.now)) (λ run. AreWords (texts words.now) run.script.now run.out.now run.main.now × (run.turns ≡ turns (texts words.now))) }
{
    match read_plain(words) {
        Some(run) => Some(run),
        None => read_with_turns(words),
    }
}

// The six words.
fn read_plain(words: &[String]) -> Option<Run<'_>>
    ensures { MatchOption result (IsNotPlain (texts words.now)) (λ run. IsPlain (texts words.now) run.script.now run.out.now run.main.now × (run.turns ≡ 1000000)) }
{
    let [run, script_flag, script, out_flag, out, main] = words else {
        return None;
    };
    if run.as_str() == "run" && script_flag.as_str() == "--script" && out_flag.as_str() == "--out" {
        Some(Run {
            script: script.as_str(),
            out: out.as_str(),
            turns: TURNS,
            main: main.as_str(),
        })
    } else {
        None
    }
}

// The eight words.
fn read_with_turns(words: &[String]) -> Option<Run<'_>>
    ensures { MatchOption result (IsNotWithTurns (texts words.now)) (λ run. IsWithTurns (texts words.now) run.script.now run.out.now run.turns run.main.now) }
{
    let [
        run,
        script_flag,
        script,
        out_flag,
        out,
        turns_flag,
        number,
        main,
    ] = words
    else {
        return None;
    };
    let turns = read_number(number.as_str())?;
    if run.as_str() == "run"
        && script_flag.as_str() == "--script"
        && out_flag.as_str() == "--out"
        && turns_flag.as_str() == "--turns"
    {
        Some(Run {
            script: script.as_str(),
            out: out.as_str(),
            turns,
            main: main.as_str(),
        })
    } else {
        None
    }
}

// The number of turns that a word says.
fn read_number(word: &str) -> Option<u32>
    ensures { MatchOption result (IsNumber word.now → ⊥) (λ number. IsNumber word.now × (number ≡ number_behind 0 word.now)) }
{
    if word.is_empty() || word.len() > MOST_DIGITS {
        return None;
    }
    number_behind(0, word.as_bytes())
}

// The number that digits say behind others that say a number.
#[tactic(auto, using(crate::proofs::Numbers::endings))]
fn number_behind(number: u32, digits: &[u8]) -> Option<u32>
    requires { number ≤ 1000000000 }
    ensures { MatchOption result (IsEnding number digits.now → ⊥) (λ found. IsEnding number digits.now × (found ≡ number_behind number digits.now)) }
{
    match digits {
        [] => Some(number),
        [digit, rest @ ..] => {
            if !is_digit(*digit) {
                return None;
            }
            let next = u64::from(number) * 10 + u64::from(*digit - b'0');
            if next > MOST_TURNS {
                return None;
            }
            number_behind(next as u32, rest)
        }
    }
}

fn is_digit(byte: u8) -> bool
    ensures { IsTrue result ↔ IsDigit byte }
{
    b'0' <= byte && byte <= b'9'
}
