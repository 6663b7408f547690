//! The command line as clap is told of it, and what clap finds in words.
ghost use Rattle.std.specs.Prelude.{◌≡◌, ◌≢◌, ◌++◌, [], Err, IfOk, None, false, map, string_bytes};
ghost use Rattle.clap.specs.Matches.{found_of};
ghost use Rattle.clap.specs.Walk.{first_of, rows_of, texts};
ghost use Rattle.clap.specs.Words.{app_of, fault_of, rule_of, shape_of, subcommand_of, subcommand_rows_of};
ghost use Rattle.clap.specs.declared.builder.command.Command.TheViews.{out-Command};
ghost use Rattle.cv_words.specs.ProgramInner.{IsGiven, all_ids, and_then, asking, bare, command_shape, folder_ids, path_ids, program, repo_ids, served, url_ids, value_rule, values_at};
ghost use Rattle.cv_words.specs.declared.words.WordsFault.TheVariants.{Usage};

use crate::words::WordsFault;
use clap::error::ErrorKind;
use clap::{Arg, ArgMatches, Command};
use std::alloc::{AllocError, Global};

/// A value that has to be there.
fn value<'a>(alloc: Global, id: &'a str) -> Arg<'a>
    ensures rule { rule_of result ≡ value_rule id.entry.now }
    ensures local { result.global ≡ false }
{
    Arg::new(alloc, id).required(true)
}

/// A command of a repository by its name.
fn of_repo<'a>(alloc: Global, name: &'a str) -> Result<Command<'a>, AllocError>
    ensures shape { IfOk result (λ c. shape_of c ≡ command_shape name.entry.now repo_ids) }
    ensures local { IfOk result (λ c. (out-Command c).has_globals ≡ false) }
{
    Command::new(alloc, name).arg(value(alloc, "repo"))
}

/// A command of a repository by its URL.
fn of_url<'a>(alloc: Global, name: &'a str) -> Result<Command<'a>, AllocError>
    ensures shape { IfOk result (λ c. shape_of c ≡ command_shape name.entry.now url_ids) }
    ensures local { IfOk result (λ c. (out-Command c).has_globals ≡ false) }
{
    Command::new(alloc, name).arg(value(alloc, "url"))
}

/// A command of a path of a repository.
fn of_path<'a>(alloc: Global, name: &'a str) -> Result<Command<'a>, AllocError>
    ensures shape { IfOk result (λ c. shape_of c ≡ command_shape name.entry.now path_ids) }
    ensures local { IfOk result (λ c. (out-Command c).has_globals ≡ false) }
{
    Command::new(alloc, name)
        .arg(value(alloc, "url"))?
        .arg(value(alloc, "path"))
}

/// A command of a path of a repository and a folder.
fn of_folder<'a>(alloc: Global, name: &'a str) -> Result<Command<'a>, AllocError>
    ensures shape { IfOk result (λ c. shape_of c ≡ command_shape name.entry.now folder_ids) }
    ensures local { IfOk result (λ c. (out-Command c).has_globals ≡ false) }
{
    Command::new(alloc, name)
        .arg(value(alloc, "url"))?
        .arg(value(alloc, "path"))?
        .arg(value(alloc, "folder"))
}

/// The program with no command yet, where clap adds no word of its own.
fn bare_program<'a>(alloc: Global) -> Command<'a>
    ensures shape { app_of result ≡ bare }
    ensures local { (out-Command result).has_globals ≡ false }
{
    Command::new(alloc, "cvkit")
        .no_binary_name(true)
        .disable_help_flag(true)
        .disable_help_subcommand(true)
        .disable_version_flag(true)
        .subcommand_required(true)
}

/// The program with the commands that serve a repository.
fn served_program<'a>(alloc: Global) -> Result<Command<'a>, AllocError>
    ensures shape { IfOk result (λ c. app_of c ≡ served) }
    ensures local { IfOk result (λ c. (out-Command c).has_globals ≡ false) }
{
    bare_program(alloc)
        .subcommand(of_repo(alloc, "init")?)?
        .subcommand(of_repo(alloc, "stdio")?)
}

/// The program with the questions too.
fn asking_program<'a>(alloc: Global) -> Result<Command<'a>, AllocError>
    ensures shape { IfOk result (λ c. app_of c ≡ asking) }
    ensures local { IfOk result (λ c. (out-Command c).has_globals ≡ false) }
{
    served_program(alloc)?
        .subcommand(of_path(alloc, "ls")?)?
        .subcommand(of_path(alloc, "stat")?)?
        .subcommand(of_path(alloc, "cat")?)
}

/// The program with all its commands.
fn whole_program<'a>(alloc: Global) -> Result<Command<'a>, AllocError>
    ensures shape { IfOk result (λ c. app_of c ≡ program) }
    ensures local { IfOk result (λ c. (out-Command c).has_globals ≡ false) }
{
    asking_program(alloc)?
        .subcommand(of_url(alloc, "shell")?)?
        .subcommand(of_folder(alloc, "publish")?)
}

/// What clap finds in the words.
pub fn match_words<'a>(alloc: Global, words: &'a [String]) -> Result<ArgMatches<'a>, WordsFault>
    ensures found { IfOk result (λ m. subcommand_rows_of m ≡ subcommand_of program (map string_bytes words.entry.now)) }
    ensures taken { IfOk result (λ m. fault_of program (map string_bytes words.entry.now) ≡ []) }
    ensures usage { result ≡ Err Usage → fault_of program (map string_bytes words.entry.now) ≢ [] }
{
    let program = whole_program(alloc)?;
    match program.try_get_matches_from(words) {
        Ok(matches) => Ok(matches),
        Err(error) => match error.kind() {
            ErrorKind::OutOfMemory => Err(WordsFault::NoMemory),
            _ => Err(WordsFault::Usage),
        },
    }
}

/// A command and its values.
#[derive(Drop)]
pub struct Given<'a> {
    pub verb: &'a str,
    pub values: Vec<&'a str>,
}

/// Adds the value that stands under this name, if there is one.
fn push_value<'a>(
    values: &mut Vec<&'a str>,
    matches: &ArgMatches<'a>,
    id: &str,
) -> Result<(), WordsFault>
    ensures pushed { IfOk result (λ _. texts values.new.items ≡ texts values.old.items ++ and_then (first_of id.now (rows_of (found_of matches.now))) []) }
    ensures memory { result ≢ Err Usage }
{
    let Some(value) = matches.get_str(id) else {
        return Ok(());
    };
    values.push(value)?;
    Ok(())
}

/// The values of a command, in their order.
#[tactic(auto, using(crate::proofs::Values::in_turn))]
fn read_values<'a>(alloc: Global, matches: &ArgMatches<'a>) -> Result<Vec<&'a str>, WordsFault>
    ensures values { IfOk result (λ values. texts values.items ≡ values_at (rows_of (found_of matches.now)) all_ids) }
    ensures memory { result ≢ Err Usage }
{
    let mut values = Vec::new(alloc);
    push_value(&mut values, matches, "repo")?;
    push_value(&mut values, matches, "url")?;
    push_value(&mut values, matches, "path")?;
    push_value(&mut values, matches, "folder")?;
    Ok(values)
}

/// Reads the command that clap has found, and its values.
pub fn read_given<'a>(alloc: Global, matches: &ArgMatches<'a>) -> Result<Given<'a>, WordsFault>
    ensures given { IfOk result (λ given. IsGiven (subcommand_rows_of matches.now) given.verb.now (texts given.values.items)) }
    ensures usage { result ≡ Err Usage → subcommand_rows_of matches.now ≡ None }
{
    match matches.subcommand() {
        Some((verb, found)) => {
            let values = read_values(alloc, found)?;
            Ok(Given { verb, values })
        }
        None => Err(WordsFault::Usage),
    }
}
