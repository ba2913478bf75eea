//! Parsing the arguments of the command line to a job.
ghost use Rattle.std.specs.Prelude.{◌≡◌, ℕ, List, codes, drop, map, option_map, true, unwrap_or};
ghost use Rattle.std.specs.Prelude.{IfOk, IfSome};
ghost use Rattle.std.specs.String.{string_bytes};
ghost use Rattle.clap.specs.Values.{IsUnsignedIn};
ghost use Rattle.clap.specs.Words.{first_of, found_of, one_of, rows_of};
ghost use Rattle.clap.specs.Walk.{texts};
ghost use Rattle.age_job.specs.Job.{IsInRange};
ghost use Rattle.age_args.specs.JobOf.{AsksForHelp, IsTaken, JobOf, Reads, is_set, name_of};
ghost use Rattle.age_args.specs.JobOf.{number_or, rest_of};

use crate::fault::WordsFault;
use crate::options::{
    AT, ATOMIC, DEFAULT_MAX_HEADER, DEFAULT_MAX_WORK, DEFAULT_WORK, FILE_KEY, INPUT, KEY, LEN,
    MAX_HEADER, MAX_WORK, NEW_KEY, NEW_PASS, NO_CLOBBER, OUTPUT, PASS, RAW, SEED, VERBOSE, WORK,
    whole_command,
};
use age_job::{Command, DEFAULT_SEED, Job};
use clap::ArgMatches;
use std::alloc::{AllocError, Global};

/// Parses the arguments, the first of which is the program's name, to a job.
///
/// Each number of the job is in its range, and the job of `range` names a file to read.
///
/// # Errors
/// `Refused` with the text of `clap` if the arguments are not a job or ask for help or the version;
/// `Memory` if an allocation was refused.
#[tactic(auto, using(crate::proofs::WordsLemmas::help_read))]
pub fn read_words(alloc: Global, words: &[&str]) -> Result<Job, WordsFault>
    // Returns a job only if `clap` has no reason to refuse the words. The words name the job's
    // command; each other field is the first value, the values after it, the number or the flag of
    // its option, or else the default. A refusal has one of `clap`'s reasons.
    ensures reads { Reads (texts words.now) result }
    // Each number of the job is in its range, and the job of `range` names a file to read.
    ensures ranges { IfOk result IsInRange }
{
    if asks_for_help(words) {
        return parse(alloc, &["agep", "--help"]);
    }
    parse(alloc, words)
}

fn parse(alloc: Global, words: &[&str]) -> Result<Job, WordsFault>
    ensures reads { Reads (texts words.now) result }
    ensures ranges { IfOk result IsInRange }
{
    let matches = whole_command(alloc)?.try_get_matches_from(words)?;
    let Some((name, matches)) = matches.subcommand() else {
        unreachable!();
    };
    Ok(job_of(alloc, command_named(name), matches)?)
}

/// Whether the words ask for help on `help`: `clap` takes the `-h` of `agep help -h` for a command.
fn asks_for_help(words: &[&str]) -> bool
    ensures { result ≡ true → AsksForHelp (texts words.now) }
{
    words.len() == 3 && words[1] == "help" && (words[2] == "--help" || words[2] == "-h")
}

fn command_named(name: &str) -> Command
    requires { (command : Command) × (name.now ≡ name_of command) }
    ensures { name.now ≡ name_of result }
{
    match name {
        "encrypt" => Command::Encrypt,
        "decrypt" => Command::Decrypt,
        "inspect" => Command::Inspect,
        "range" => Command::Range,
        "rewrap" => Command::Rewrap,
        "salvage" => Command::Salvage,
        _ => unreachable!(),
    }
}

/// The job of this command. An option that the command lacks has no value in `matches`, so its
/// field has the default or is empty.
fn job_of(alloc: Global, command: Command, matches: &ArgMatches<'_>) -> Result<Job, AllocError>
    requires { IsTaken command (rows_of (found_of matches.now)) }
    ensures command { IfOk result (λ job. job.command ≡ command) }
    ensures job { IfOk result (JobOf (rows_of (found_of matches.now))) }
    ensures ranges { IfOk result IsInRange }
{
    let (pass, key, more_keys) = secret_files(alloc, matches, PASS, KEY)?;
    let (new_pass, new_key, more_new_keys) = secret_files(alloc, matches, NEW_PASS, NEW_KEY)?;
    Ok(Job {
        command,
        pass,
        more_passes: rest_of(alloc, matches, PASS)?,
        key,
        more_keys,
        new_pass,
        new_key,
        more_new_keys,
        work: number_or(matches, WORK, u64::from(DEFAULT_WORK)) as u8,
        seed: seed_of(alloc, matches)?,
        max_work: number_or(matches, MAX_WORK, u64::from(DEFAULT_MAX_WORK)) as u8,
        max_header: number_or(matches, MAX_HEADER, DEFAULT_MAX_HEADER) as usize,
        output: text_of(alloc, matches, OUTPUT)?,
        no_clobber: is_set(matches, NO_CLOBBER),
        atomic: is_set(matches, ATOMIC),
        raw: is_set(matches, RAW),
        file_key: text_of(alloc, matches, FILE_KEY)?,
        input: text_of(alloc, matches, INPUT)?,
        at: number_or(matches, AT, 0),
        len: number_or(matches, LEN, 0),
        verbose: is_set(matches, VERBOSE),
    })
}

/// The files of the first passphrase, of the first key and of the other keys, by these options.
fn secret_files(
    alloc: Global,
    matches: &ArgMatches<'_>,
    pass: &str,
    key: &str,
) -> Result<(Option<String>, Option<String>, Vec<String>), AllocError>
    ensures { IfOk result (λ files. let rows = rows_of (found_of matches.now) in
        (option_map string_bytes files.0 ≡ first_of pass.now rows)
        × ((option_map string_bytes files.1 ≡ first_of key.now rows)
        × (map string_bytes files.2.items ≡ rest_of key.now rows))) }
{
    let first = text_of(alloc, matches, pass)?;
    Ok((
        first,
        text_of(alloc, matches, key)?,
        rest_of(alloc, matches, key)?,
    ))
}

fn seed_of(alloc: Global, matches: &ArgMatches<'_>) -> Result<String, AllocError>
    ensures { IfOk result (λ seed. string_bytes seed
        ≡ unwrap_or (first_of (codes "seed") (rows_of (found_of matches.now))) DEFAULT_SEED.now) }
{
    String::from_str(alloc, matches.get_str(SEED).unwrap_or(DEFAULT_SEED))
}

/// The number of this option, or `default` if `matches` has no value of the option.
fn number_or(matches: &ArgMatches<'_>, id: &str, default: u64) -> u64
    requires { IfSome (one_of id.now (rows_of (found_of matches.now)))
        (λ text. (least most : ℕ) × IsUnsignedIn least most text) }
    ensures { result ≡ number_or default id.now (rows_of (found_of matches.now)) }
{
    matches.get_one(id).unwrap_or(default)
}

/// Whether this flag is set.
fn is_set(matches: &ArgMatches<'_>, id: &str) -> bool
    ensures { result ≡ is_set id.now (rows_of (found_of matches.now)) }
{
    matches.get_one(id).unwrap_or(false)
}

/// The first value of this option, if it has one.
fn text_of(alloc: Global, matches: &ArgMatches<'_>, id: &str) -> Result<Option<String>, AllocError>
    ensures { IfOk result
        (λ text. option_map string_bytes text ≡ first_of id.now (rows_of (found_of matches.now))) }
{
    match matches.get_str(id) {
        Some(text) => Ok(Some(String::from_str(alloc, text)?)),
        None => Ok(None),
    }
}

/// The values of this option after the first.
fn rest_of(alloc: Global, matches: &ArgMatches<'_>, id: &str) -> Result<Vec<String>, AllocError>
    ensures { IfOk result (λ rest. map string_bytes rest.items
        ≡ rest_of id.now (rows_of (found_of matches.now))) }
{
    match matches.get_strs(id).unwrap_or(&[]).split_first() {
        Some((_, rest)) => copied(alloc, rest),
        None => Ok(Vec::new(alloc)),
    }
}

/// Copies these texts.
#[tactic(auto, using(crate::proofs::RowLemmas::copies_take))]
fn copied(alloc: Global, texts: &[&str]) -> Result<Vec<String>, AllocError>
    ensures { IfOk result (λ copies. map string_bytes copies.items ≡ map (λ t. t.now) texts.now) }
{
    let mut copies = Vec::with_capacity(alloc, texts.len())?;
    for text in texts {
        copies.push(String::from_str(alloc, text)?)?;
    }
    Ok(copies)
}
