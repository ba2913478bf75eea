//! The commands and options that `clap` parses. An option's id is its long name.
ghost use Rattle.std.specs.Prelude.{◌≡◌, [], codes, false, true, IfOk};
ghost use Rattle.clap.specs.Simple.{new_shape};
ghost use Rattle.clap.specs.Words.{App, Rule, Shape, app_of, rule_of, shape_of, with_subcommand};
ghost use Rattle.age_args.specs.CommandLine as line;
ghost use Rattle.age_args.specs.CommandLine.{IsArg};

use crate::texts::{
    ATOMIC_HELP, DECRYPT_END, DECRYPT_HELP, ENCRYPT_END, ENCRYPTED_OUTPUT_HELP, FILE_KEY_HELP,
    INPUT_HELP, INSPECT_END, KEY_HELP, KEYS_HELP, MAX_HEADER_HELP, MAX_WORK_HELP, NEW_KEY_HELP,
    NEW_PASS_HELP, NO_CLOBBER_HELP, PASS_HELP, PASSES_HELP, PLAIN_OUTPUT_HELP, RANGE_END,
    REWRAP_END, SALT_HELP, SALVAGE_END, SEED_HELP, SEEKABLE_INPUT_HELP, VERBOSE_HELP, WHOLE_END,
    WORK_HELP,
};
use age_job::{
    DEFAULT_SEED, MAX_HEADER_SIZE, MAX_OFFSET, MAX_WORK_FACTOR, MIN_HEADER_SIZE, MIN_WORK_FACTOR,
};
use clap::{Arg, ArgAction, Command, value_parser};
use std::alloc::{AllocError, Global};

pub(crate) const PASS: &str = "passphrase";

pub(crate) const KEY: &str = "key";

pub(crate) const NEW_PASS: &str = "new-pass";

pub(crate) const NEW_KEY: &str = "new-key";

pub(crate) const WORK: &str = "work";

pub(crate) const SEED: &str = "seed";

pub(crate) const MAX_WORK: &str = "max-work";

pub(crate) const MAX_HEADER: &str = "max-header";

pub(crate) const OUTPUT: &str = "output";

pub(crate) const NO_CLOBBER: &str = "no-clobber";

pub(crate) const ATOMIC: &str = "atomic";

pub(crate) const RAW: &str = "raw";

pub(crate) const FILE_KEY: &str = "file-key";

pub(crate) const INPUT: &str = "input";

pub(crate) const AT: &str = "at";

pub(crate) const LEN: &str = "len";

pub(crate) const VERBOSE: &str = "verbose";

/// The flag `-d` of `decrypt`, which does nothing: no field of a job has its value.
const DECRYPT: &str = "decrypt";

/// The work factor that `encrypt` and `rewrap` write by default, as text for `clap`.
pub(crate) const DEFAULT_WORK_TEXT: &str = "18";

/// That default as a number, for the job of a command without this option.
pub(crate) const DEFAULT_WORK: u8 = 18;

/// The maximum work factor that `decrypt`, `range`, `rewrap` and `salvage` accept by default, as
/// text for `clap`.
pub(crate) const DEFAULT_MAX_WORK_TEXT: &str = "22";

/// That default as a number, for the job of a command without this option.
pub(crate) const DEFAULT_MAX_WORK: u8 = 22;

/// The default of the maximum size of a header in bytes, as text for `clap`.
pub(crate) const DEFAULT_MAX_HEADER_TEXT: &str = "65536";

/// That default as a number.
pub(crate) const DEFAULT_MAX_HEADER: u64 = 65536;

const ABOUT: &str = "Encrypt and decrypt files in the age v1 format";

/// The newest version in `CHANGELOG.md`.
// generated: version of the program, one line
const VERSION: &str = "0.7.0";

/// The whole command line.
pub(crate) fn whole_command<'a>(alloc: Global) -> Result<Command<'a>, AllocError>
    ensures { IfOk result (λ command. app_of command ≡ line.agep) }
{
    let command = Ok(bare_command(alloc));
    let command = with_subcommand(command, encrypt_command(alloc));
    let command = with_subcommand(command, decrypt_command(alloc));
    let command = with_subcommand(command, inspect_command(alloc));
    let command = with_subcommand(command, range_command(alloc));
    let command = with_subcommand(command, rewrap_command(alloc));
    let command = with_subcommand(command, salvage_command(alloc))?;
    Ok(command.subcommand_required(true))
}

/// The program, without its commands.
fn bare_command<'a>(alloc: Global) -> Command<'a>
    ensures { app_of result ≡ record {
      top = record (new_shape (codes "agep"))
          { has_version = true; propagate_version = true };
      subs = [];
    } }
{
    Command::new(alloc, "agep")
        .about(ABOUT)
        .after_help(WHOLE_END)
        .version(VERSION)
        .propagate_version(true)
}

/// Adds a command to the program. The clause is about a plain command (`is_plain` of `clap`).
fn with_subcommand<'a>(
    command: Result<Command<'a>, AllocError>,
    subcommand: Result<Command<'a>, AllocError>,
) -> Result<Command<'a>, AllocError>
    ensures { (app : App) (shape : Shape) → shape.is_plain ≡ true
        → IfOk command.entry (λ before. app_of before ≡ app)
        → IfOk subcommand.entry (λ sub. shape_of sub ≡ shape)
        → IfOk result (λ more. app_of more ≡ with_subcommand app shape) }
{
    command?.subcommand(subcommand?)
}

/// A command, without its options. Its version text names the program, not the command.
fn bare_subcommand<'a>(
    alloc: Global,
    name: &'a str,
    about: &'a str,
    end: &'a str,
) -> Result<Command<'a>, AllocError>
    ensures { IfOk result (λ command. shape_of command ≡ new_shape name.entry.now) }
{
    Command::new(alloc, name)
        .about(about)
        .after_help(end)
        .display_name("agep")
}

/// The command with one more option or argument.
fn with_arg<'a>(
    command: Result<Command<'a>, AllocError>,
    arg: Arg<'a>,
) -> Result<Command<'a>, AllocError>
    requires { arg.global ≡ false }
    ensures { (shape : Shape) (rule : Rule) → rule_of arg.entry ≡ rule
        → IfOk command.entry (λ before. shape_of before ≡ shape)
        → IfOk result (λ more. shape_of more ≡ line.with_rule shape rule) }
{
    command?.arg(arg)
}

fn encrypt_command<'a>(alloc: Global) -> Result<Command<'a>, AllocError>
    ensures { IfOk result (λ command. shape_of command ≡ line.encrypt) }
{
    let command = bare_subcommand(
        alloc,
        "encrypt",
        "Encrypt a file with a passphrase or a key",
        ENCRYPT_END,
    );
    let command = with_arg(command, pass_option(alloc));
    let command = with_arg(command, key_option(alloc, KEY_HELP));
    let command = with_arg(command, work_option(alloc));
    let command = with_arg(command, seed_option(alloc, SEED_HELP));
    let command = with_arg(command, max_header_option(alloc));
    let command = with_output_options(alloc, command, ENCRYPTED_OUTPUT_HELP);
    let command = with_arg(command, verbose_option(alloc));
    with_arg(command, input_word(alloc))
}

fn decrypt_command<'a>(alloc: Global) -> Result<Command<'a>, AllocError>
    ensures { IfOk result (λ command. shape_of command ≡ line.decrypt) }
{
    let command = bare_subcommand(
        alloc,
        "decrypt",
        "Decrypt a file with a passphrase or a key",
        DECRYPT_END,
    );
    let command = with_opening_options(alloc, command, PLAIN_OUTPUT_HELP);
    let command = with_arg(command, flag(alloc, DECRYPT, 'd', DECRYPT_HELP));
    with_arg(command, input_word(alloc))
}

/// Adds the options of the commands that unlock a file.
fn with_opening_options<'a>(
    alloc: Global,
    command: Result<Command<'a>, AllocError>,
    output_help: &'a str,
) -> Result<Command<'a>, AllocError>
    ensures { (shape : Shape) → IfOk command.entry (λ before. shape_of before ≡ shape)
        → IfOk result (λ more. shape_of more ≡ line.with_rules shape line.opening) }
{
    let command = with_arg(command, passes_option(alloc));
    let command = with_arg(command, key_option(alloc, KEYS_HELP));
    let command = with_arg(command, max_work_option(alloc));
    let command = with_arg(command, max_header_option(alloc));
    let command = with_output_options(alloc, command, output_help);
    with_arg(command, verbose_option(alloc))
}

/// Adds the options of the commands that write OUT.
fn with_output_options<'a>(
    alloc: Global,
    command: Result<Command<'a>, AllocError>,
    output_help: &'a str,
) -> Result<Command<'a>, AllocError>
    ensures { (shape : Shape) → IfOk command.entry (λ before. shape_of before ≡ shape)
        → IfOk result (λ more. shape_of more ≡ line.with_rules shape line.writing) }
{
    let output = text_option(alloc, OUTPUT, 'o', "OUT", output_help);
    let command = with_arg(command, output);
    let command = with_arg(command, flag(alloc, NO_CLOBBER, 'n', NO_CLOBBER_HELP));
    with_arg(command, long_flag(alloc, ATOMIC, ATOMIC_HELP))
}

fn inspect_command<'a>(alloc: Global) -> Result<Command<'a>, AllocError>
    ensures { IfOk result (λ command. shape_of command ≡ line.inspect) }
{
    let command = bare_subcommand(
        alloc,
        "inspect",
        "Show what the header of an age file holds",
        INSPECT_END,
    );
    let raw = flag(
        alloc,
        RAW,
        'r',
        "Print the header itself instead of a table",
    );
    let command = with_arg(command, raw);
    let file_key = text_option(alloc, FILE_KEY, 'f', "FILE", FILE_KEY_HELP);
    let command = with_arg(command, file_key);
    let command = with_arg(command, max_header_option(alloc));
    let command = with_arg(command, verbose_option(alloc));
    with_arg(command, input_word(alloc))
}

fn range_command<'a>(alloc: Global) -> Result<Command<'a>, AllocError>
    ensures { IfOk result (λ command. shape_of command ≡ line.range) }
{
    let command = bare_subcommand(alloc, "range", "Decrypt part of a file", RANGE_END);
    let command = with_opening_options(alloc, command, PLAIN_OUTPUT_HELP);
    let at = offset_word(
        alloc,
        AT,
        "AT",
        "Offset of the first byte in the plaintext, from 0",
    );
    let command = with_arg(command, at);
    let len = offset_word(alloc, LEN, "LEN", "How many bytes to write at most");
    let command = with_arg(command, len);
    with_arg(
        command,
        required_word(alloc, INPUT, "IN", SEEKABLE_INPUT_HELP),
    )
}

fn rewrap_command<'a>(alloc: Global) -> Result<Command<'a>, AllocError>
    ensures { IfOk result (λ command. shape_of command ≡ line.rewrap) }
{
    let command = bare_subcommand(
        alloc,
        "rewrap",
        "Change the passphrase or keys without encrypting again",
        REWRAP_END,
    );
    let command = with_opening_options(alloc, command, ENCRYPTED_OUTPUT_HELP);
    let new_pass = text_option(alloc, NEW_PASS, 'P', "FILE", NEW_PASS_HELP);
    let command = with_arg(command, new_pass);
    let new_key = text_option(alloc, NEW_KEY, 'K', "FILE", NEW_KEY_HELP).action(ArgAction::Append);
    let command = with_arg(command, new_key);
    let command = with_arg(command, work_option(alloc));
    let command = with_arg(command, seed_option(alloc, SALT_HELP));
    with_arg(command, input_word(alloc))
}

fn salvage_command<'a>(alloc: Global) -> Result<Command<'a>, AllocError>
    ensures { IfOk result (λ command. shape_of command ≡ line.salvage) }
{
    let command = bare_subcommand(
        alloc,
        "salvage",
        "Save what is left of a damaged file",
        SALVAGE_END,
    );
    let command = with_opening_options(alloc, command, PLAIN_OUTPUT_HELP);
    with_arg(command, input_word(alloc))
}

fn pass_option<'a>(alloc: Global) -> Arg<'a>
    ensures { IsArg line.pass result }
{
    text_option(alloc, PASS, 'p', "FILE", PASS_HELP)
}

/// The passphrase option of the commands that unlock a file: it may be given several times.
fn passes_option<'a>(alloc: Global) -> Arg<'a>
    ensures { IsArg (line.several line.pass) result }
{
    text_option(alloc, PASS, 'p', "FILE", PASSES_HELP).action(ArgAction::Append)
}

fn key_option<'a>(alloc: Global, help: &'a str) -> Arg<'a>
    ensures { IsArg line.key result }
{
    text_option(alloc, KEY, 'k', "FILE", help).action(ArgAction::Append)
}

fn work_option<'a>(alloc: Global) -> Arg<'a>
    ensures { IsArg line.work result }
{
    text_option(alloc, WORK, 'w', "N", WORK_HELP)
        .value_parser(value_parser!(u64).range(MIN_WORK_FACTOR as i64..=MAX_WORK_FACTOR as i64))
        .default_value(DEFAULT_WORK_TEXT)
}

fn seed_option<'a>(alloc: Global, help: &'a str) -> Arg<'a>
    ensures { IsArg line.seed result }
{
    text_option(alloc, SEED, 's', "SEED", help).default_value(DEFAULT_SEED)
}

fn max_work_option<'a>(alloc: Global) -> Arg<'a>
    ensures { IsArg line.max_work result }
{
    text_option(alloc, MAX_WORK, 'm', "N", MAX_WORK_HELP)
        .value_parser(value_parser!(u64).range(MIN_WORK_FACTOR as i64..=MAX_WORK_FACTOR as i64))
        .default_value(DEFAULT_MAX_WORK_TEXT)
}

fn max_header_option<'a>(alloc: Global) -> Arg<'a>
    ensures { IsArg line.max_header result }
{
    text_option(alloc, MAX_HEADER, 'H', "N", MAX_HEADER_HELP)
        .value_parser(value_parser!(u64).range(MIN_HEADER_SIZE as i64..=MAX_HEADER_SIZE as i64))
        .default_value(DEFAULT_MAX_HEADER_TEXT)
}

fn verbose_option<'a>(alloc: Global) -> Arg<'a>
    ensures { IsArg line.verbose result }
{
    flag(alloc, VERBOSE, 'v', VERBOSE_HELP)
}

fn input_word<'a>(alloc: Global) -> Arg<'a>
    ensures { IsArg line.input result }
{
    Arg::new(alloc, INPUT)
        .value_name("IN")
        .help(INPUT_HELP)
        .action(ArgAction::Set)
}

fn offset_word<'a>(alloc: Global, id: &'a str, value_name: &'a str, help: &'a str) -> Arg<'a>
    ensures { IsArg (line.offset id.entry.now) result }
{
    required_word(alloc, id, value_name, help).value_parser(value_parser!(u64).range(
        0..=MAX_OFFSET as i64,
    ))
}

fn required_word<'a>(alloc: Global, id: &'a str, value_name: &'a str, help: &'a str) -> Arg<'a>
    ensures { IsArg (line.required (line.word id.entry.now)) result }
{
    Arg::new(alloc, id)
        .value_name(value_name)
        .help(help)
        .required(true)
        .action(ArgAction::Set)
}

fn flag<'a>(alloc: Global, id: &'a str, short: char, help: &'a str) -> Arg<'a>
    ensures { IsArg (line.flag short id.entry.now) result }
{
    long_flag(alloc, id, help).short(short)
}

fn long_flag<'a>(alloc: Global, id: &'a str, help: &'a str) -> Arg<'a>
    ensures { IsArg (line.long_flag id.entry.now) result }
{
    Arg::new(alloc, id)
        .long(id)
        .help(help)
        .action(ArgAction::SetTrue)
}

fn text_option<'a>(
    alloc: Global,
    id: &'a str,
    short: char,
    value_name: &'a str,
    help: &'a str,
) -> Arg<'a>
    ensures { IsArg (line.option short id.entry.now) result }
{
    Arg::new(alloc, id)
        .short(short)
        .long(id)
        .value_name(value_name)
        .help(help)
        .action(ArgAction::Set)
}
