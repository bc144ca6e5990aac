// The words of a command line.
ghost use Rattle.std.specs.Prelude.{◌≡◌, IfOk, map, option_map, string_bytes};
ghost use Rattle.clap.specs.Words.{app_of};
ghost use Rattle.dispatch_run.specs.Words.{dispatcher, document_in};

use ats_words::{WordsAnswered, answer_to};
use clap::{Arg, ArgAction, Command};
use std::alloc::{AllocError, Global};

const ABOUT: &str = "Lets trains go on while they run.

It reads a document, a line `journal`, journal lines and a line `live`, and then answers requests line by line.
Where a file of the document is named, standard input begins with the line `journal`.";

/// What the words ask for: a session of the document on standard input, or of the one in this file.
#[derive(Clone, Copy)]
pub struct Order<'a> {
    pub document: Option<&'a str>,
}

// The command as clap takes it.
fn command<'a>(alloc: Global) -> Result<Command<'a>, AllocError>
    ensures { IfOk result (λ command. app_of command ≡ dispatcher) }
{
    let document = Arg::new(alloc, "document")
        .value_name("DOCUMENT")
        .help(
            "The file of the document; without it the document is the first part of standard input",
        )
        .action(ArgAction::Set);
    Command::new(alloc, "dispatch")
        .version("1.17.0")
        .about(ABOUT)
        .no_binary_name(true)
        .arg(document)
}

/// What the words after the program's name ask for.
///
/// # Errors
///
/// A text to show, for help and the version; a text that says what is wrong with the words; out of memory.
pub fn words<'a>(alloc: Global, words: &'a [String]) -> Result<Order<'a>, WordsAnswered>
    ensures { IfOk result (λ order. option_map (λ s. s.now) order.document ≡ document_in (map string_bytes words.now)) }
{
    let Ok(command) = command(alloc) else {
        return Err(WordsAnswered::Memory);
    };
    match command.try_get_matches_from(words) {
        Ok(matches) => Ok(Order {
            document: matches.get_str("document"),
        }),
        Err(error) => Err(answer_to(alloc, &error)),
    }
}
