//! What the command line of a program asks for; or standard error says why not, and the status is 2.
#![tactic(auto)]

ghost use Rattle.std.specs.Prelude.{◌≡◌, ℕ, IfErr, IfOk, List, Some, map, string_bytes};
ghost use Rattle.gs_shell_options.specs.Options.{sizes_of, words_options};

use gs_base::{Config, Refusal};
use std::process::ExitCode;
use std::rt::Env;
use std::{env, io};

/// The words of the command line, of which the first is the program's own.
fn words(rt: &(impl Env + AllocGlobal)) -> io::Result<Vec<String>> {
    Ok(env::args(rt)?.collect(rt.alloc())?)
}

/// Says on standard error what is wrong with words that are refused.
fn explain(rt: &(impl Eprint + AllocGlobal), program: &str, words: &[String], refusal: &Refusal) {
    let text = match refusal {
        Refusal::Memory => None,
        _ => gs_shell_options::explanation(rt.alloc(), words).ok(),
    };
    let _ = match text {
        Some(text) => eprint!(rt; "{text}"),
        None => eprintln!(rt; "{program}: {refusal}"),
    };
}

/// What these words ask for: the configuration, and whether the nodes run in threads. Where they are refused, standard error says why in
/// the name of the program, and this is the status 2, with which the program is to end.
fn asked_by(
    rt: &(impl Eprint + AllocGlobal),
    program: &str,
    words: &[String],
) -> Result<(Config, bool), ExitCode>
    ensures asked { IfOk result (λ asked. words_options (map string_bytes words.now) ≡ Some (sizes_of asked.0, asked.1)) }
    ensures refused { IfErr result (λ code. code.status ≡ 2) }
{
    match gs_shell_options::options(rt.alloc(), words) {
        Ok(asked) => Ok(asked),
        Err(refusal) => {
            explain(rt, program, words, &refusal);
            Err(ExitCode::from(2))
        }
    }
}

/// The configuration that the command line asks for, and whether the nodes run in threads: these are what some words ask for, which are
/// those that are read. Where they can't be read or are refused, standard error says why in the name of the program, and this is the
/// status 2, with which the program is to end.
pub fn configured(
    rt: &(impl Eprint + Env + AllocGlobal),
    program: &str,
) -> Result<(Config, bool), ExitCode>
    ensures asked { IfOk result (λ asked. (words : List (List ℕ)) × (words_options words ≡ Some (sizes_of asked.0, asked.1))) }
    ensures refused { IfErr result (λ code. code.status ≡ 2) }
{
    let Ok(words) = words(rt) else {
        let _ = eprintln!(rt; "{program}: the arguments can't be read");
        return Err(ExitCode::from(2));
    };
    asked_by(rt, program, &words)
}
