//! The options that a program's arguments ask for.
ghost use Rattle.std.specs.Prelude.{◌≡◌, ◌↔◌, [], ◌∷◌, None, Err, IfOk, IfErr, string_bytes};
ghost use Rattle.std.specs.Option.{ok_or, option_and_then};
ghost use Rattle.std.specs.Char.{is_ascii_digit};
ghost use Rattle.std.specs.List.{list_all};
ghost use Rattle.lgrep_cli.specs.CommandLine.{bare, is_dashed, operands_in, operands_of, text_of};
ghost use Rattle.lgrep_cli.specs.CommandLine.{texts};
ghost use Rattle.lgrep_cli.specs.CommandLine.{AreLast, AreOptionsOf, AskFor, AskForNothing};
ghost use Rattle.lgrep_cli.specs.CommandLine.{AskForSomething};
ghost use Rattle.lgrep_cli.specs.Numerals.{is_numeral, number_of};

use std::alloc::Global;
use thiserror::Error;

/// How the program is called: the line on standard error after a usage error.
pub const USAGE: &str =
    "usage: lgrep [-v] [-A N] [-B N] [-m N] [-U] [--passthru] [-c] LITERAL [PATH]\n";

/// What a search is to do.
#[derive(Debug, Drop)]
pub struct Options {
    /// Whether the lines without the literal are selected, instead of those with it.
    pub invert: bool,
    /// Whether the literal is also looked for across lines: if it contains a line feed, and so
    /// never matches within a line. Any other literal is searched for line by line all the same.
    pub multi_line: bool,
    /// How many lines are reported after each match.
    pub after: usize,
    /// How many lines are reported before each match.
    pub before: usize,
    /// Whether every line is reported.
    pub passthru: bool,
    /// How many lines are selected at most, and across lines, unless `invert` is set, how many
    /// matches count; `None` is no limit.
    pub max: Option<u64>,
    /// Whether only the number of matches that are reported is written. By line each line that is
    /// reported as one counts; across lines, unless `invert` is set, a run of lines that matches
    /// touch is one.
    pub count: bool,
    /// The text that lines are searched for. The empty text is in each line.
    pub literal: String,
    /// The path of the file that is searched; `None` is standard input.
    pub path: Option<String>,
}

/// Why arguments give no options.
#[derive(Clone, Copy, Debug, PartialEq, Eq, Error)]
pub enum OptionsFault {
    /// They aren't as `USAGE` says.
    #[error("the arguments are not as the usage says")]
    Usage,
    /// There was no memory for the literal or the path.
    #[error("out of memory")]
    Memory,
}

impl Options {
    /// The options that some arguments, which are without the program's name, ask for: options,
    /// then the literal, then a path or nothing. `--` ends the options, and `-` alone is a literal.
    /// After the literal an argument is the path, whatever its first byte is. If an option is
    /// repeated, the last one counts. A number has one to ten decimal digits, and is below 2 ^ 32.
    ///
    /// An error is `Usage` exactly if the arguments aren't a command line (`request_of` of
    /// `specs/CommandLine.antt` has nothing for them); any other error is `Memory`: there is no
    /// memory for the literal or the path.
    pub fn parse(alloc: Global, arguments: &[String]) -> Result<Options, OptionsFault>
        ensures options { IfOk result (AskFor arguments.now) }
        ensures operands { IfOk result (λ options.
            AreLast (operands_in options) (texts arguments.now)) }
        ensures usage { (result ≡ Err OptionsFault.Usage) ↔ AskForNothing arguments.now }
        ensures memory { (result ≡ Err OptionsFault.Memory) → AskForSomething arguments.now }
    {
        let mut options = Options::without_literal(alloc);
        let mut later = arguments.iter();
        while let Some(argument) = later.next() {
            match argument.as_str() {
                "-v" => options.invert = true,
                "-U" => options.multi_line = true,
                "--passthru" => options.passthru = true,
                "-c" => options.count = true,
                "-A" => options.after = number_in(later.next())? as usize,
                "-B" => options.before = number_in(later.next())? as usize,
                "-m" => options.max = Some(u64::from(number_in(later.next())?)),
                "--" => {
                    let Some(literal) = later.next() else {
                        return Err(OptionsFault::Usage);
                    };
                    return options.with_operands(literal, later.as_slice());
                }
                option if is_dashed(option) => return Err(OptionsFault::Usage),
                _ => return options.with_operands(argument, later.as_slice()),
            }
        }
        Err(OptionsFault::Usage)
    }

    // No option, the empty literal and no path.
    fn without_literal(alloc: Global) -> Options
        ensures { AreOptionsOf (bare []) result }
    {
        Options {
            invert: false,
            multi_line: false,
            after: 0,
            before: 0,
            passthru: false,
            max: None,
            count: false,
            literal: String::new(alloc),
            path: None,
        }
    }

    // The options with the literal and the path, if nothing but a path follows the literal.
    fn with_operands(mut self, literal: &String, later: &[String]) -> Result<Options, OptionsFault>
        ensures options { IfOk result (λ options.
            options ≡ record self { literal = options.literal; path = options.path }) }
        ensures operands { IfOk result (λ options.
            operands_in options ≡ texts (literal.now ∷ later.now)) }
        ensures usage { (result ≡ Err OptionsFault.Usage)
            ↔ (operands_of (texts (literal.now ∷ later.now)) ≡ None) }
    {
        self.path = match later {
            [] => None,
            [path] => Some(copy_of(path)?),
            _ => return Err(OptionsFault::Usage),
        };
        self.literal = copy_of(literal)?;
        Ok(self)
    }
}

// A copy of an argument.
fn copy_of(argument: &String) -> Result<String, OptionsFault>
    ensures copied { IfOk result (λ copy. string_bytes copy ≡ string_bytes argument.now) }
    ensures memory { IfErr result (λ error. error ≡ OptionsFault.Memory) }
{
    argument.clone().map_err(|_| OptionsFault::Memory)
}

// Whether an argument is a dash and more.
fn is_dashed(argument: &str) -> bool
    ensures { result ≡ is_dashed argument.now }
{
    argument.as_bytes().first() == Some(&b'-') && argument.len() > 1
}

// The number that an option needs in the argument after it.
fn number_in(argument: Option<&String>) -> Result<u32, OptionsFault>
    ensures { result ≡ ok_or (option_and_then number_of (text_of argument.entry))
        OptionsFault.Usage }
{
    argument
        .and_then(|text| number(text.as_str()))
        .ok_or(OptionsFault::Usage)
}

// The number that a text writes, if it writes one.
fn number(text: &str) -> Option<u32>
    ensures { result ≡ number_of text.now }
{
    if is_numeral(text) {
        text.parse().ok()
    } else {
        None
    }
}

// Whether a text is one to ten digits.
fn is_numeral(text: &str) -> bool
    ensures { result ≡ is_numeral text.now }
{
    !text.is_empty() && text.len() <= 10 && are_digits(text)
}

// Whether a text has nothing but digits.
fn are_digits(text: &str) -> bool
    ensures { result ≡ list_all is_ascii_digit text.now }
{
    text.bytes().all(|byte| byte.is_ascii_digit())
}
