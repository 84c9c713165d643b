// What `demo` answers.
ghost use Rattle.std.specs.Prelude.{◌≡◌, ◌≤◌, ◌++◌, IfOk, OnOk, length};
ghost use Rattle.tc_base.specs.Reading.{longest_text};
ghost use Rattle.tc_answer.specs.Answers as a;
ghost use Rattle.tc_top.specs.Causes.{Checks};
ghost use Rattle.tc_answer.specs.AnswersSeen.{Says};
ghost use Rattle.tc_top.specs.Demo.{demo_line, demo_schema, demo_sheet, input_name, output_name, sheet_name};
ghost use Rattle.tc_answer.specs.declared.limits.TheConstants.{MOST_DEMO};
ghost use Rattle.tc_decide.specs.declared.limits.TheConstants.{MOST_ROWS};

use crate::check::check_texts;
use std::alloc::Global;
use tc_answer::{Answer, Operand, Operands};
use tc_base::NoMemory;
use tc_decide::limits::MOST_ROWS;

/// The stylesheet that copies all elements.
const SHEET: &[u8] =
    b"<xsl:stylesheet version=\"1.0\" xmlns:xsl=\"http://www.w3.org/1999/XSL/Transform\"><xsl:template match=\"*\"><xsl:copy><xsl:apply-templates/></xsl:copy></xsl:template></xsl:stylesheet>";

/// Decides whether the stylesheet that copies all elements is safe from a schema of so many elements to the same.
pub fn demo(alloc: Global, size: u32) -> Result<Answer, NoMemory>
    requires some { 1 ≤ size }
    requires few { size ≤ MOST_DEMO }
    ensures { IfOk result (λ said. (answer : a.Answer) × Says said answer
        × Checks MOST_ROWS input_name output_name sheet_name (demo_schema size)
        (demo_schema size) demo_sheet answer) }
{
    let input = schema_of(alloc, size)?;
    let output = schema_of(alloc, size)?;
    let sheet = Vec::from_slice(alloc, SHEET)?;
    let operands = Operands {
        input: Operand {
            name: "IN",
            text: input,
        },
        output: Operand {
            name: "OUT",
            text: output,
        },
        sheet: Operand {
            name: "SHEET",
            text: sheet,
        },
    };
    check_texts(alloc, MOST_ROWS, &operands)
}

/// The text of a schema of so many elements.
fn schema_of(alloc: Global, size: u32) -> Result<Vec<u8>, NoMemory>
    requires some { 1 ≤ size }
    requires few { size ≤ MOST_DEMO }
    ensures text { IfOk result (λ text. text.items ≡ demo_schema size) }
    ensures short { IfOk result (λ text. length text.items ≤ longest_text) }
{
    let mut text = Vec::from_slice(alloc, b"start = e1\n")?;
    let mut number = 0;
    while number < size {
        number += 1;
        put_line(&mut text, size, number)?;
    }
    Ok(text)
}

/// Puts the definition of one element.
fn put_line(text: &mut Vec<u8>, size: u32, number: u32) -> Result<(), NoMemory>
    requires some { 1 ≤ size }
    requires few { size ≤ MOST_DEMO }
    requires within { number ≤ size }
    ensures { OnOk result (text.new.items ≡ text.old.items ++ demo_line size number) }
{
    let mut digits = itoa::Buffer::new();
    text.extend_from_slice(b"e")?;
    text.extend_from_slice(digits.format(number).as_bytes())?;
    text.extend_from_slice(b" = element e")?;
    text.extend_from_slice(digits.format(number).as_bytes())?;
    text.extend_from_slice(b" { e")?;
    text.extend_from_slice(digits.format(number % size + 1).as_bytes())?;
    text.extend_from_slice(b"* }\n")?;
    Ok(())
}
