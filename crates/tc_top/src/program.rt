// What a program does with its arguments.
ghost use Rattle.std.specs.Prelude.{◌≡◌, ◌≢◌, ◌⊎◌, [], IfOk, OnErr, drop, map, string_bytes};
ghost use Rattle.std.specs.Process.{exit_status};
ghost use Rattle.std.specs.Vec.Iter.{into_iter_items};
ghost use Rattle.tc_io.specs.Faults.{Rose};
ghost use Rattle.tc_io.specs.Reads.{Happened};
ghost use Rattle.tc_io.specs.Sink.{AreWrites};
ghost use Rattle.tc_top.specs.Answers.{Ends};
ghost use Rattle.tc_top.specs.Program.{words_of, LackMemory};
ghost use Rattle.tc_answer.specs.StatusSeen.{number_of};
ghost use Rattle.tc_answer.specs.declared.status.Status.{Status};

use crate::typecheck;
use std::alloc::Global;
use std::env::Args;
use std::io;
use std::io::ErrorKind;
use std::process::ExitCode;
use tc_answer::{Status, WordList};
use tc_base::NoMemory;
use tc_io::{Sink, Store};

/// Carries out the command that the arguments of a program give, and tells the code with which the program exits: the
/// number of the call's status. The words are the arguments behind the program's name; where one of them isn't UTF-8
/// there are none, since no command has such a word, and no command has no words.
pub fn run_program<S: Store, K: Sink>(
    alloc: Global,
    arguments: io::Result<Args>,
    store: &mut S,
    sink: &mut K,
) -> ExitCode
    // The words are carried out, unless memory was refused for them.
    ensures ends { (status : Status) × (exit_status result ≡ number_of status)
        × (Ends (words_of arguments) (Happened S.read_gives S.holds S.faults store.old store.new)
        (λ writes. AreWrites K.write_gives sink.old writes sink.new)
        (Rose (K.faults sink.old) (K.faults sink.new)) (K.written sink.old)
        (K.written sink.new) status
        ⊎ ((status ≡ Status.NoMemory) × LackMemory arguments)) }
    ensures unwritten { exit_status result ≡ number_of Status.NoMemory → sink.new ≡ sink.old }
{
    match word_list(alloc, arguments) {
        Ok(words) => exit_code(typecheck(alloc, &words, store, sink)),
        Err(NoMemory) => exit_code(Status::NoMemory),
    }
}

/// The code with which a program exits: the number of the status.
fn exit_code(status: Status) -> ExitCode
    ensures { exit_status result ≡ number_of status }
{
    ExitCode::from(status.number())
}

/// The words that the arguments of a program give.
fn word_list(alloc: Global, arguments: io::Result<Args>) -> Result<WordList, NoMemory>
    ensures words { IfOk result (λ words. words ≡ words_of arguments) }
    ensures lack { OnErr result (LackMemory arguments) }
{
    match arguments {
        Ok(arguments) => words_behind_name(alloc, arguments),
        Err(error) if error.kind() == ErrorKind::OutOfMemory => Err(NoMemory),
        Err(_) => Ok(WordList::new(alloc)),
    }
}

/// The words behind the first one.
fn words_behind_name(alloc: Global, arguments: Args) -> Result<WordList, NoMemory>
    ensures lack { OnErr result (drop 1 (into_iter_items arguments) ≢ []) }
    ensures words { IfOk result
        (λ words. words ≡ map string_bytes (drop 1 (into_iter_items arguments))) }
{
    let mut arguments = arguments;
    let _name = arguments.next();
    let mut words = WordList::new(alloc);
    for word in arguments {
        words.push(word.as_str())?;
    }
    Ok(words)
}
