//! Laws of the definitions, each the contract of a function that does nothing.
ghost use Rattle.tc_read.specs.SchemaLaws.{HasOneReason};
ghost use Rattle.tc_top.specs.CertifiedFiles.{ProvedIsAccepted};
ghost use Rattle.tc_top.specs.OneAnswer.{HasOneAnswer, HasOneAnswerOn, HasAnswerOfCall, HasOneConstruct, HasOneFaultOfNames, HasOneReasonOfDtd};

/// Laws of answers. Words and what was read have one answer, but for what is left open: which least counterexample is
/// shown, and so whether its result is; which least document shows that two schemas differ, and which that a rule, a
/// named body or a branch is used; which limit is told where several numbers of rows pass theirs, and of a run that passes
/// both; and for which of the reasons malformed, unsupported and too deep, and where, a text is refused. So have words and
/// held files, where no read fails; and a call gives that answer, unless a read of it fails. A schema's text in the compact
/// syntax is refused for one reason, at one place; declarations of elements and a document for one reason, and but for
/// malformed at one place alone; and a stylesheet that is written well but for the names of its templates and its calls for
/// one reason, at one place.
pub fn law_of_answers()
    ensures one { HasOneAnswer }
    ensures on_files { HasOneAnswerOn }
    ensures call { HasAnswerOfCall }
    ensures schema { HasOneReason }
    ensures declarations { HasOneReasonOfDtd }
    ensures construct { HasOneConstruct }
    ensures names { HasOneFaultOfNames }
{}

/// The law of proofs: what `prove` writes of held files is accepted by `verify` on the same files.
pub fn law_of_proofs()
    ensures { ProvedIsAccepted }
{}
