// The words of the command line.
ghost use Rattle.std.specs.Prelude.{◌≡◌, ◌≤◌, ℕ, IfSome, Some, length};
ghost use Rattle.mg_model.specs.Tariff.{usual_tariff};
ghost use Rattle.mg_io.specs.Arguments.{arguments};
ghost use Rattle.mg_commands.specs.Commands.{before_colon, byte_of, dry_of, format_of, gen_of, is_check, lines_within, run_of, seed_of, settings_of, spelled, tariff_step, tariff_step_parts, tariff_of};
ghost use Rattle.mg_commands.specs.Forms.{batch_within, dry_words, format_usual, format_with, gen_with, run_alone, run_with};
ghost use Rattle.mg_commands.specs.declared.words.Command.TheVariants.{Gen, Run};

use mg_model::{Params, Tariff};
use mg_text::{digit, is_word, read_number};

/// The most lines of a generated run.
const LINE_LIMIT: u64 = 1_000_000;

/// What the program is asked to do.
#[derive(Clone, Copy, PartialEq, Eq)]
pub enum Command {
    /// Run the lines of the input on a fresh machine that is kept nowhere.
    Dry(Params),
    /// Make a volume.
    Format(Params),
    /// Report whether the disk is a volume.
    Check,
    /// Run the lines of the input on the volume, this many replies to a batch: 1 to 64.
    Run(u64),
    /// Run the lines of a generated run on a fresh machine that is kept nowhere, and count the replies: the run's number, and
    /// how many lines it has, at most 1,000,000.
    Gen(u64, u64),
}

/// The command that these words spell, which are those after the program's name; None exactly if they spell none.
///
/// They are `VOLUME dry FRAMES SEED CREDITS`; `VOLUME format FRAMES SEED CREDITS` with nothing after it (the usual tariff)
/// or with a tariff, `F:R F:R F:R F:R`, whose steps keep the rule of [`Tariff`]; `VOLUME check`; `VOLUME run`, a batch
/// being one reply, or `VOLUME run BATCH`; and `VOLUME gen NUMBER LINES`. FRAMES is 16 to 65,536, SEED has 64 hexadecimal
/// digits of either case, CREDITS is at most `2^62`, BATCH is 1 to 64, NUMBER is below `2^64`, LINES is at most 1,000,000,
/// and numbers are spelled as in a line.
pub fn read_words(words: &[String]) -> Option<Command>
    ensures command { result ≡ spelled words.now }
    ensures few_lines { (number count : ℕ) → result ≡ Some (Gen number count) → count ≤ 1000000 }
    ensures batch_within { (batch : ℕ) → result ≡ Some (Run batch) → (1 ≤ batch) × (batch ≤ 64) }
{
    if let Some(params) = dry(words) {
        return Some(Command::Dry(params));
    }
    if let Some(params) = format(words) {
        return Some(Command::Format(params));
    }
    if is_check(words) {
        return Some(Command::Check);
    }
    if let Some(batch) = run(words) {
        return Some(Command::Run(batch));
    }
    let (number, lines) = generated(words)?;
    Some(Command::Gen(number, lines))
}

/// Whether the words are `VOLUME check`.
fn is_check(words: &[String]) -> bool
    ensures { result ≡ is_check (arguments words.now) }
{
    if words.len() != 2 {
        return false;
    }
    is_word(words[1].as_bytes(), b"check")
}

/// How many replies a batch has, if the words are `VOLUME run` or `VOLUME run BATCH`.
fn run(words: &[String]) -> Option<u64>
    ensures batch { result ≡ run_of (arguments words.now) }
    ensures within { IfSome result (λ batch. (1 ≤ batch) × (batch ≤ 64)) }
{
    if words.len() == 2 {
        return run_alone(words[1].as_bytes());
    }
    if words.len() == 3 {
        return run_with(words[1].as_bytes(), words[2].as_bytes());
    }
    None
}

/// A batch of one reply, if the word is `run`.
fn run_alone(word: &[u8]) -> Option<u64>
    ensures batch { result ≡ run_alone word.now }
    ensures within { IfSome result (λ batch. (1 ≤ batch) × (batch ≤ 64)) }
{
    if is_word(word, b"run") { Some(1) } else { None }
}

/// The number of replies that make a batch, if the first word is `run`.
fn run_with(word: &[u8], batch: &[u8]) -> Option<u64>
    ensures batch { result ≡ run_with word.now batch.now }
    ensures within { IfSome result (λ batch. (1 ≤ batch) × (batch ≤ 64)) }
{
    if is_word(word, b"run") {
        within_batch(read_number(batch)?)
    } else {
        None
    }
}

/// A number of replies that a batch may have.
fn within_batch(batch: u64) -> Option<u64>
    ensures batch { result ≡ batch_within batch }
    ensures within { IfSome result (λ batch. (1 ≤ batch) × (batch ≤ 64)) }
{
    if batch >= 1 && batch <= 64 {
        Some(batch)
    } else {
        None
    }
}

/// The number and the lines that `VOLUME gen NUMBER LINES` gives.
fn generated(words: &[String]) -> Option<(u64, u64)>
    ensures run { result ≡ gen_of (arguments words.now) }
    ensures at_most_1000000_lines { IfSome result (λ run. run.1 ≤ 1000000) }
{
    match words {
        [_, word, number, lines] => {
            gen_with(word.as_bytes(), number.as_bytes(), lines.as_bytes())
        }
        _ => None,
    }
}

/// The number and the lines that these words give, if the first is `gen`.
fn gen_with(word: &[u8], number: &[u8], lines: &[u8]) -> Option<(u64, u64)>
    ensures run { result ≡ gen_with word.now number.now lines.now }
    ensures at_most_1000000_lines { IfSome result (λ run. run.1 ≤ 1000000) }
{
    if is_word(word, b"gen") {
        within_lines(read_number(number)?, read_number(lines)?)
    } else {
        None
    }
}

/// A run of `lines` lines, if a run may have that many.
fn within_lines(number: u64, lines: u64) -> Option<(u64, u64)>
    ensures run { result ≡ lines_within number lines }
    ensures at_most_1000000_lines { IfSome result (λ run. run.1 ≤ 1000000) }
{
    if lines <= LINE_LIMIT {
        Some((number, lines))
    } else {
        None
    }
}

/// The settings that `VOLUME dry FRAMES SEED CREDITS` gives.
fn dry(words: &[String]) -> Option<Params>
    ensures { result ≡ dry_of (arguments words.now) }
{
    if words.len() != 5 {
        return None;
    }
    dry_words(
        words[1].as_bytes(),
        words[2].as_bytes(),
        words[3].as_bytes(),
        words[4].as_bytes(),
    )
}

/// The settings that these words give, if the first is `dry`.
fn dry_words(word: &[u8], frames: &[u8], seed: &[u8], credits: &[u8]) -> Option<Params>
    ensures { result ≡ dry_words word.now frames.now seed.now credits.now }
{
    if is_word(word, b"dry") {
        settings(frames, seed, credits)
    } else {
        None
    }
}

/// The settings that `VOLUME format FRAMES SEED CREDITS` gives, with or without a tariff.
fn format(words: &[String]) -> Option<Params>
    ensures { result ≡ format_of (arguments words.now) }
{
    match words {
        [_, word, frames, seed, credits] => format_usual(
            word.as_bytes(),
            frames.as_bytes(),
            seed.as_bytes(),
            credits.as_bytes(),
        ),
        [_, word, frames, seed, credits, a, b, c, d] => format_with(
            tariff(a.as_bytes(), b.as_bytes(), c.as_bytes(), d.as_bytes()),
            word.as_bytes(),
            frames.as_bytes(),
            seed.as_bytes(),
            credits.as_bytes(),
        ),
        _ => None,
    }
}

/// The settings that these words give with the usual tariff, if the first is `format`.
fn format_usual(word: &[u8], frames: &[u8], seed: &[u8], credits: &[u8]) -> Option<Params>
    ensures { result ≡ format_usual word.now frames.now seed.now credits.now }
{
    if is_word(word, b"format") {
        settings(frames, seed, credits)
    } else {
        None
    }
}

/// The settings that these words give with a tariff, if there is one and the first is `format`.
fn format_with(
    tariff: Option<Tariff>,
    word: &[u8],
    frames: &[u8],
    seed: &[u8],
    credits: &[u8],
) -> Option<Params>
    ensures { result ≡ format_with tariff word.now frames.now seed.now credits.now }
{
    if is_word(word, b"format") {
        settings_with(tariff?, frames, seed, credits)
    } else {
        None
    }
}

/// The settings of a volume with the usual tariff.
fn settings(frames: &[u8], seed: &[u8], credits: &[u8]) -> Option<Params>
    ensures { result ≡ settings_of usual_tariff frames.now seed.now credits.now }
{
    let frames = read_number(frames)?;
    let seed = read_seed(seed)?;
    let credits = read_number(credits)?;
    if frames < 16 || frames > 65536 {
        return None;
    }
    Params::new(frames, seed, credits, Tariff::usual(frames))
}

/// The settings of a volume with this tariff.
fn settings_with(tariff: Tariff, frames: &[u8], seed: &[u8], credits: &[u8]) -> Option<Params>
    ensures { result ≡ settings_of (λ _. tariff) frames.now seed.now credits.now }
{
    Params::new(
        read_number(frames)?,
        read_seed(seed)?,
        read_number(credits)?,
        tariff,
    )
}

/// The tariff that four words give, if it keeps the rule.
fn tariff(first: &[u8], second: &[u8], third: &[u8], fourth: &[u8]) -> Option<Tariff>
    ensures { result ≡ tariff_of first.now second.now third.now fourth.now }
{
    Tariff::new([step(first)?, step(second)?, step(third)?, step(fourth)?])
}

/// The step that `F:R` gives.
fn step(word: &[u8]) -> Option<(u64, u64)>
    ensures { result ≡ tariff_step word.now }
{
    let (from, rest) = word.split_at(before_colon(word));
    tariff_step_parts(from, rest)
}

/// The step of a number and what follows it, which begins with a colon.
fn tariff_step_parts(from: &[u8], rest: &[u8]) -> Option<(u64, u64)>
    ensures { result ≡ tariff_step_parts from.now rest.now }
{
    match rest {
        [_, rate @ ..] => Some((read_number(from)?, read_number(rate)?)),
        [] => None,
    }
}

/// How many bytes are before the first colon.
fn before_colon(word: &[u8]) -> usize
    ensures count { result ≡ before_colon word.now }
    ensures within { result ≤ length word.now }
{
    word.iter().take_while(|b| **b != b':').count()
}

/// The byte of two hexadecimal digits, the high one first.
fn byte(high: u8, low: u8) -> Option<u8>
    ensures { result ≡ byte_of high low }
{
    Some(16 * digit(16, high)? + digit(16, low)?)
}

/// The seed that 64 hexadecimal digits spell.
fn read_seed(word: &[u8]) -> Option<[u8; 32]>
    ensures { result ≡ seed_of word.now }
{
    if word.len() != 64 {
        return None;
    }
    let mut seed = [0; 32];
    for i in 0..32 {
        seed[i] = byte(word[2 * i], word[2 * i + 1])?;
    }
    Some(seed)
}
