//! The top call: it reads the files that its words name, decides, and writes the answer.
#![tactic(auto)]

mod certificates;
mod check;
mod compare;
mod demo;
pub mod laws;
mod pieces;
mod program;
mod prove;
mod run;
mod schema_texts;
mod schemas;
mod spots;
mod unread;
mod upgrade;
mod valid;
mod verdicts;
mod verify;

ghost use Rattle.std.specs.Prelude.{◌≡◌, ◌≤◌, ◌⊎◌, ℕ, List, Option, Some, IfOk, OnErr};
ghost use Rattle.tc_io.specs.Faults.{Rose};
ghost use Rattle.tc_io.specs.Reads.{Happened};
ghost use Rattle.tc_io.specs.Sink.{AreWrites};
ghost use Rattle.tc_io.specs.Store.{Files};
ghost use Rattle.tc_model.specs.Grammars.{Grammar};
ghost use Rattle.tc_model.specs.Sheets.{Sheet};
ghost use Rattle.tc_model.specs.Trees.{Trees};
ghost use Rattle.tc_answer.specs.Answers as a;
ghost use Rattle.tc_top.specs.Answers.{Ends, ReadsNothing, KeepsToLimits};
ghost use Rattle.tc_top.specs.AnswersSeen.{IsRightFor};
ghost use Rattle.tc_model.specs.Safety.{IsSafe};
ghost use Rattle.tc_model.specs.RncText.{RncText};
ghost use Rattle.tc_read.specs.Sheets.{IsSheetOf};
ghost use Rattle.tc_top.specs.CertifiedFiles.{ProvesFiles, VerifiesFiles, VerifiesShortFiles, UpgradesFiles, DecidesProof, DecidesCertificate, DecidesUpgrade};
ghost use Rattle.tc_top.specs.Checking.{most_rows};
ghost use Rattle.tc_top.specs.Demo.{demo_schema, demo_sheet};
ghost use Rattle.tc_decide.specs.declared.limits.TheConstants.{MOST_ROWS};
ghost use Rattle.tc_top.specs.Headline.{IsCutShort, ChecksFiles, ChecksShortFiles, ShowsCounterexample, DecidesSafety, ValidatesFiles, DecidesValidity, RunsFiles, GivesResult};
ghost use Rattle.tc_top.specs.OneAnswer.{Gives, GivesOn};
ghost use Rattle.tc_top.specs.ComparedFiles.{ComparesFiles, DecidesComparison};
ghost use Rattle.tc_top.specs.DeadFiles.{AsksFiles, AsksShortFiles, DecidesSpots, IsShownSo, IsTold, IsUnusedSo, WritesSpots};
ghost use Rattle.tc_top.specs.FilesInPieces.{ValidatesFilesInPieces, DecidesValidityInPieces};
ghost use Rattle.tc_decide.specs.Comparing.{inclusion, equality};
ghost use Rattle.tc_answer.specs.Words as w;
ghost use Rattle.tc_answer.specs.Words.{Words, IsNoCommand};
ghost use Rattle.tc_answer.specs.WordsSeen.{texts};

use certificates::{prove, upgrade, verify};
use check::check;
use compare::Question;
use demo::demo;
use pieces::valid_in_pieces;
pub use program::run_program;
use run::run;
use schemas::compare;
use spots::dead;
use std::alloc::Global;
use tc_answer::{Answer, Command, read_words, write_lines};
pub use tc_answer::{Status, WordList};
use tc_base::NoMemory;
use tc_io::{Sink, Store, WriteFault};
use valid::valid;

/// Carries out the command that the words give: reads the files that it names from the store, and writes the answer to
/// the sink, each line by a write of its own. All memory is taken before the first write.
pub fn typecheck<S: Store, K: Sink>(
    alloc: Global,
    words: &WordList,
    store: &mut S,
    sink: &mut K,
) -> Status
    // A call ends with an answer that is right for the words and for what was read, in order, up to the first read that
    // wasn't Ok, and the writes are its lines, in order; with such an answer broken off by the first write that failed; or, only for a
    // command, for want of memory.
    ensures ends { Ends words.now (Happened S.read_gives S.holds S.faults store.old store.new)
        (λ writes. AreWrites K.write_gives sink.old writes sink.new)
        (Rose (K.faults sink.old) (K.faults sink.new)) (K.written sink.old)
        (K.written sink.new) result }
    ensures unwritten { result ≡ Status.NoMemory → sink.new ≡ sink.old }

    // Words alone decide that they are no command.
    ensures usage { IsNoCommand words.now
        → IsCutShort result ⊥ (Rose (K.faults sink.old) (K.faults sink.new))
        ⊎ Gives result (K.written sink.old) (K.written sink.new) a.usage }
    ensures unread { ReadsNothing words.now → store.new ≡ store.old }

    // Where the store tells what it holds, an answer is given that is right for the files, by its cause: the one answer, but for what is left
    // open, by `law_of_answers`; unless memory is refused, or a read or a write failed.
    ensures exactly { (files : Files) → S.holds store.old ≡ Some files
        → IsCutShort result (Rose (S.faults store.old) (S.faults store.new))
        (Rose (K.faults sink.old) (K.faults sink.new))
        ⊎ GivesOn words.now files result (K.written sink.old) (K.written sink.new) }

    // A check of held files that is yes: every document that is valid for the input is transformed to one that is valid for the output.
    ensures safe { (files : Files) (limit : Option ℕ) (i o : Grammar) (s : Sheet)
        → S.holds store.old ≡ Some files → ChecksFiles words.now files limit i o s
        → result ≡ Status.Yes → IsSafe i o s }

    // A check of held files that is no: the document that is written is valid for the input, and its result, which is written too unless it
    // is too large, isn't valid for the output.
    ensures shown { (files : Files) (limit : Option ℕ) (i o : Grammar) (s : Sheet)
        → S.holds store.old ≡ Some files → ChecksFiles words.now files limit i o s
        → result ≡ Status.No → ShowsCounterexample (K.written sink.old) (K.written sink.new) i o s }

    // The headline: a check of held files is yes exactly where no limit is passed and every result is valid, no exactly where none is passed
    // and one isn't, with a least document that shows it; and it tells of a limit exactly where one is passed.
    ensures headline { (files : Files) (limit : Option ℕ) (i o : Grammar) (s : Sheet)
        → S.holds store.old ≡ Some files → ChecksShortFiles words.now files limit i o s
        → IsCutShort result (Rose (S.faults store.old) (S.faults store.new))
        (Rose (K.faults sink.old) (K.faults sink.new))
        ⊎ DecidesSafety result (K.written sink.old) (K.written sink.new) (most_rows limit) i o s }

    // So is a demonstration on the texts that it makes, for which nothing is read. That they spell a schema and a stylesheet, at each size, is
    // tested and not proved: it is a premise here, and in the next two clauses.
    ensures demo_safe { (size : ℕ) (g : Grammar) (s : Sheet) → Words words.now (w.demo size)
        → RncText (demo_schema size) g → IsSheetOf demo_sheet s
        → result ≡ Status.Yes → IsSafe g g s }
    ensures demo_shown { (size : ℕ) (g : Grammar) (s : Sheet) → Words words.now (w.demo size)
        → RncText (demo_schema size) g → IsSheetOf demo_sheet s
        → result ≡ Status.No → ShowsCounterexample (K.written sink.old) (K.written sink.new) g g s }
    ensures demonstrated { (size : ℕ) (g : Grammar) (s : Sheet) → Words words.now (w.demo size)
        → RncText (demo_schema size) g → IsSheetOf demo_sheet s
        → IsCutShort result ⊥ (Rose (K.faults sink.old) (K.faults sink.new))
        ⊎ DecidesSafety result (K.written sink.old) (K.written sink.new) MOST_ROWS g g s }

    // `prove` of held files decides as a check does, but that where it is yes the text of the one certificate with exactly the rows of
    // what is live is written, and that it tells of the limit of its length where that is passed.
    ensures proved { (files : Files) (limit : Option ℕ) (i o : Grammar) (s : Sheet)
        → S.holds store.old ≡ Some files → ProvesFiles words.now files limit i o s
        → IsCutShort result (Rose (S.faults store.old) (S.faults store.new))
        (Rose (K.faults sink.old) (K.faults sink.new))
        ⊎ DecidesProof i o s result (K.written sink.old) (K.written sink.new) (most_rows limit) }

    // `verify` of held files that is yes: every document that is valid for the input is transformed to one that is valid for the output.
    ensures accepted_safe { (files : Files) (i o : Grammar) (s : Sheet) (bytes : List ℕ)
        → S.holds store.old ≡ Some files → VerifiesFiles words.now files i o s bytes
        → result ≡ Status.Yes → IsSafe i o s }

    // It is yes exactly where no limit is passed that is tried before rows are, and the bytes are the text of a certificate; no exactly
    // where none is passed and they aren't, by the first rule that fails.
    ensures verified { (files : Files) (i o : Grammar) (s : Sheet) (bytes : List ℕ)
        → S.holds store.old ≡ Some files → VerifiesShortFiles words.now files i o s bytes
        → IsCutShort result (Rose (S.faults store.old) (S.faults store.new))
        (Rose (K.faults sink.old) (K.faults sink.new))
        ⊎ DecidesCertificate i o s result (K.written sink.old) (K.written sink.new) bytes }

    // `upgrade` of a held file is yes exactly where its bytes are a certificate's text, with the text of its data by changes.
    ensures upgraded { (files : Files) (bytes : List ℕ) → S.holds store.old ≡ Some files
        → UpgradesFiles words.now files bytes
        → IsCutShort result (Rose (S.faults store.old) (S.faults store.new))
        (Rose (K.faults sink.old) (K.faults sink.new))
        ⊎ DecidesUpgrade result (K.written sink.old) (K.written sink.new) bytes }

    // A validation of held files is yes exactly where the document is valid, and no exactly where it isn't.
    ensures validity { (files : Files) (g : Grammar) (d : Trees) → S.holds store.old ≡ Some files
        → ValidatesFiles words.now files g d
        → IsCutShort result (Rose (S.faults store.old) (S.faults store.new))
        (Rose (K.faults sink.old) (K.faults sink.new))
        ⊎ DecidesValidity result (K.written sink.old) (K.written sink.new) g d }

    // A validation of a held file in pieces, of whatever size, is yes or no exactly where the schema keeps to its limits and the file's bytes are a text of
    // XML in which no tag, and never the names of open elements together, is too long, by whether its document is valid; it refuses the document exactly where the bytes are
    // no text of XML that is read, and no tag and no names are too long before reading stops; and else it tells of a limit that is passed.
    ensures validity_in_pieces { (files : Files) (g : Grammar) (name bytes : List ℕ)
        → S.holds store.old ≡ Some files
        → ValidatesFilesInPieces words.now files g name bytes
        → IsCutShort result (Rose (S.faults store.old) (S.faults store.new))
        (Rose (K.faults sink.old) (K.faults sink.new))
        ⊎ DecidesValidityInPieces result (K.written sink.old) (K.written sink.new) g name bytes }

    // A run of a held stylesheet on a held document that is yes writes the document's result.
    ensures running { (files : Files) (s : Sheet) (d : Trees) → S.holds store.old ≡ Some files
        → RunsFiles words.now files s d
        → GivesResult result (K.written sink.old) (K.written sink.new) s d }

    // It is yes exactly where the stylesheet and its run keep to their limits, and else tells of one that is passed.
    ensures limited { (files : Files) (s : Sheet) (d : Trees) → S.holds store.old ≡ Some files
        → RunsFiles words.now files s d
        → IsCutShort result (Rose (S.faults store.old) (S.faults store.new))
        (Rose (K.faults sink.old) (K.faults sink.new))
        ⊎ KeepsToLimits result (K.written sink.old) (K.written sink.new) s d }

    // `include` of held files is yes exactly where each document that is valid for the first schema is valid for the second, with the
    // numbers of rows; no exactly where some document that can be shown isn't, with one of the fewest nodes; and else it tells of a limit
    // that is passed. So is `same`, for documents that are valid for exactly one of both.
    ensures inclusion { (files : Files) (g h : Grammar) → S.holds store.old ≡ Some files
        → ComparesFiles words.now files inclusion g h
        → IsCutShort result (Rose (S.faults store.old) (S.faults store.new))
        (Rose (K.faults sink.old) (K.faults sink.new))
        ⊎ DecidesComparison g h result (K.written sink.old) (K.written sink.new) inclusion }
    ensures equality { (files : Files) (g h : Grammar) → S.holds store.old ≡ Some files
        → ComparesFiles words.now files equality g h
        → IsCutShort result (Rose (S.faults store.old) (S.faults store.new))
        (Rose (K.faults sink.old) (K.faults sink.new))
        ⊎ DecidesComparison g h result (K.written sink.old) (K.written sink.new) equality }

    // `dead` of held files: each spot of the stylesheet that is told to be dead is instantiated by no document that is valid for the schema;
    // each document that is written is valid, and instantiates its spot; and some valid document does of which it is told that all are too large.
    ensures unused { (files : Files) (i : Grammar) (s : Sheet) → S.holds store.old ≡ Some files
        → AsksFiles words.now files i s → IsTold result
        → WritesSpots (K.written sink.old) (K.written sink.new) s (IsUnusedSo i s) }
    ensures instantiated { (files : Files) (i : Grammar) (s : Sheet)
        → S.holds store.old ≡ Some files → AsksFiles words.now files i s → IsTold result
        → WritesSpots (K.written sink.old) (K.written sink.new) s (IsShownSo i s) }

    // It tells of each spot exactly where none passes a limit: that it is dead, or a least document that instantiates it, unless all that
    // do are too large; it is no exactly where one is dead; and it tells of a limit exactly where a spot passes one.
    ensures spots_told { (files : Files) (i : Grammar) (s : Sheet) → S.holds store.old ≡ Some files
        → AsksShortFiles words.now files i s
        → IsCutShort result (Rose (S.faults store.old) (S.faults store.new))
        (Rose (K.faults sink.old) (K.faults sink.new))
        ⊎ DecidesSpots i s result (K.written sink.old) (K.written sink.new) }

    // What is held stays as it is, and no count of faults falls.
    ensures held { S.holds store.new ≡ S.holds store.old }
    ensures store_count { S.faults store.old ≤ S.faults store.new }
    ensures sink_count { K.faults sink.old ≤ K.faults sink.new }
{
    match answer_words(alloc, words.as_slice(), store) {
        Ok(answer) => match write_lines(answer.text.as_bytes(), sink) {
            Ok(()) => answer.status,
            Err(WriteFault) => Status::WriteFault,
        },
        Err(NoMemory) => Status::NoMemory,
    }
}

/// The answer to the words, before it is written.
fn answer_words<S: Store>(
    alloc: Global,
    words: &[String],
    store: &mut S,
) -> Result<Answer, NoMemory>
    ensures right { IfOk result
        (IsRightFor (texts words.now)
        (Happened S.read_gives S.holds S.faults store.old store.new)) }
    ensures no_memory { OnErr result ((command : w.Command) × Words (texts words.now) command) }
    ensures unread { ReadsNothing (texts words.now) → store.new ≡ store.old }
    ensures held { S.holds store.new ≡ S.holds store.old }
    ensures count { S.faults store.old ≤ S.faults store.new }
{
    let Some(command) = read_words(words) else {
        return Ok(Answer::usage());
    };
    match command {
        Command::Check(limit, triple) => check(alloc, limit, triple, store),
        Command::Run(sheet, document) => run(alloc, sheet, document, store),
        Command::Valid(schema, document) => valid(alloc, schema, document, store),
        Command::ValidInPieces(size, schema, document) => {
            valid_in_pieces(alloc, size, schema, document, store)
        }
        Command::Prove(limit, triple) => prove(alloc, limit, triple, store),
        Command::Verify(triple, certificate) => verify(alloc, triple, certificate, store),
        Command::Demo(size) => demo(alloc, size),
        Command::Upgrade(certificate) => upgrade(alloc, certificate, store),
        Command::Dead(input, sheet) => dead(alloc, input, sheet, store),
        Command::Include(first, second) => {
            compare(alloc, Question::Inclusion, first, second, store)
        }
        Command::Same(first, second) => { compare(alloc, Question::Equality, first, second, store) }
    }
}
