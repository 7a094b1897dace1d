// The switches of a command line.

ghost use Rattle.std.specs.Prelude.{◌≡◌, ◌≤◌, [], ◌∷◌, length, option_map};
ghost use Rattle.std.specs.List.{position_or_len};
ghost use Rattle.gn_command_line.specs.Words.{is_equals, name_said, value_said, switch_named, is_digit, is_first_digit, threads_of, with_threads, with_arguments, with_switch};
ghost use Rattle.gn_command_line.specs.Commands.{options_view};

use gn_values::MAX_BYTES;

// Build arguments can be written to a file with a newline behind them, and read again.
const MAX_ARGUMENTS: usize = MAX_BYTES - 1;

/// A switch, which has a value.
#[derive(Clone, Copy, Debug, PartialEq, Eq)]
pub(crate) enum Switch {
    /// How many workers there are at most: `--threads=N`.
    Threads,
    /// Build arguments: `--args=TEXT`.
    Arguments,
}

/// What the switches of a line say. The last one of a name counts.
#[derive(Clone, Copy, Debug)]
pub struct Options<'a> {
    /// How many workers there are at most, from 1 to 64.
    pub threads: Option<u32>,
    /// Build arguments.
    pub arguments: Option<&'a [u8]>,
}

impl Switch {
    /// The switch of this name.
    #[tactic(auto, unfolding(crate::specs::Words::switch_named))]
    pub(crate) fn named(name: &[u8]) -> Option<Switch>
        ensures { result ≡ switch_named name.now }
    {
        if name == b"threads".as_slice() {
            Some(Switch::Threads)
        } else if name == b"args".as_slice() {
            Some(Switch::Arguments)
        } else {
            None
        }
    }

    /// These options with this switch in place of one of its name. None comes exactly where it has no value, or one that it
    /// can't have.
    #[tactic(auto, unfolding(crate::specs::Words::with_switch))]
    pub(crate) fn put<'a>(
        self,
        value: Option<&'a [u8]>,
        options: Options<'a>,
    ) -> Option<Options<'a>>
        ensures { option_map options_view result ≡ with_switch self (option_map (λ t. t.now) value.entry) (options_view options.entry) }
    {
        let text = value?;
        match self {
            Switch::Threads => with_threads(threads_of(text), options),
            Switch::Arguments => with_arguments(text, options),
        }
    }
}

fn with_threads<'a>(threads: Option<u32>, options: Options<'a>) -> Option<Options<'a>>
    ensures { option_map options_view result ≡ with_threads threads (options_view options.entry) }
{
    match threads {
        Some(threads) => Some(Options {
            threads: Some(threads),
            arguments: options.arguments,
        }),
        None => None,
    }
}

fn with_arguments<'a>(text: &'a [u8], options: Options<'a>) -> Option<Options<'a>>
    ensures { option_map options_view result ≡ with_arguments text.now (options_view options.entry) }
{
    if text.len() > MAX_ARGUMENTS {
        return None;
    }
    Some(Options {
        threads: options.threads,
        arguments: Some(text),
    })
}

fn is_digit(byte: u8) -> bool
    ensures { result ≡ is_digit byte }
{
    matches!(byte, b'0'..=b'9')
}

fn is_first_digit(byte: u8) -> bool
    ensures { result ≡ is_first_digit byte }
{
    matches!(byte, b'1'..=b'9')
}

// A number of workers of one digit.
#[tactic(auto, unfolding(crate::specs::Words::threads_of))]
fn one_digit(digit: u8) -> Option<u32>
    ensures { result ≡ threads_of (digit ∷ []) }
{
    if !is_first_digit(digit) {
        return None;
    }
    Some(u32::from(digit - b'0'))
}

// A number of workers of two digits.
#[tactic(auto, unfolding(crate::specs::Words::threads_of))]
fn two_digits(first: u8, second: u8) -> Option<u32>
    ensures { result ≡ threads_of (first ∷ second ∷ []) }
{
    if !is_first_digit(first) || !is_digit(second) {
        return None;
    }
    let number = 10 * u32::from(first - b'0') + u32::from(second - b'0');
    if number <= 64 { Some(number) } else { None }
}

// The number of workers that a text is.
#[tactic(auto, unfolding(crate::specs::Words::threads_of))]
fn threads_of(text: &[u8]) -> Option<u32>
    ensures { result ≡ threads_of text.now }
{
    match text {
        [digit] => one_digit(*digit),
        [first, second] => two_digits(*first, *second),
        _ => None,
    }
}

// How many bytes stand before the first `=`.
fn len_before_equals(text: &[u8]) -> usize
    ensures value { result ≡ position_or_len is_equals text.now }
    ensures within { result ≤ length text.now }
{
    for (i, here) in text.iter().enumerate() {
        if *here == b'=' {
            return i;
        }
    }
    text.len()
}

/// The name that a switch says behind its dashes.
pub(crate) fn name_said(text: &[u8]) -> &[u8]
    ensures { result.now ≡ name_said text.now }
{
    &text[..len_before_equals(text)]
}

/// The value that a switch says behind its dashes, if it has one.
pub(crate) fn value_said(text: &[u8]) -> Option<&[u8]>
    ensures { option_map (λ t. t.now) result ≡ value_said text.now }
{
    let len = len_before_equals(text);
    if len == text.len() {
        return None;
    }
    Some(&text[len + 1..])
}
