//! The labels and statements of a text.

ghost use Rattle.std.specs.Prelude.{◌≡◌, IfOk, OnOk, ◌+◌};
ghost use Rattle.bpf_text.specs.code.LineReading.{fault_at, source_of};
ghost use Rattle.bpf_text.specs.Sources.{statement_slots};
ghost use Rattle.bpf_text.specs.code.SourceSeen.{source_seen};
ghost use Rattle.bpf_text.specs.Statements.{seen};

use crate::error::TextError;
use crate::line::{Label, LineFault, behind_line};
use crate::line_read::read_line;
use crate::statement::Statement;
use std::alloc::{AllocError, Global};

/// A statement, with its slot and its line, counted from 1.
#[derive(Clone, Copy)]
pub struct Said<'a> {
    pub statement: Statement<'a>,
    pub slot: usize,
    pub line: usize,
}

/// The labels and statements of the lines, up to the first line that has no form or a number out of its range.
#[derive(Drop)]
pub struct Source<'a> {
    pub labels: Vec<Label<'a>>,
    pub said: Vec<Said<'a>>,
    pub fault: Option<TextError>,
}

fn slots_of(statement: &Statement) -> usize
    ensures { result ≡ statement_slots (Some (seen statement.now)) }
{
    match statement {
        Statement::Plain(insn) => insn.slots() as usize,
        Statement::ToLabel(..) => 1,
    }
}

/// The refusal of a line with a fault.
fn fault_at(line: usize, fault: LineFault) -> TextError
    ensures { result ≡ fault_at line fault }
{
    match fault {
        LineFault::NoForm => TextError::Form { line },
        LineFault::OutOfRange => TextError::Range { line },
    }
}

/// Reads the lines of a text, each once.
pub fn source_of(alloc: Global, text: &[u8]) -> Result<Source<'_>, AllocError>
    ensures { IfOk result (λ source. source_seen source ≡ source_of text.now) }
{
    let mut labels = Vec::new(alloc);
    let mut said = Vec::new(alloc);
    let mut rest = Some(text);
    let mut line = 1;
    let mut slot = 0;
    'lines: while let Some(text) = rest {
        let above = labels.len();
        let read = read_line(&mut labels, text, slot, line)?;
        let statement = match read.said {
            Ok(statement) => statement,
            Err(fault) => {
                labels.truncate(above);
                let fault = Some(fault_at(line, fault));
                return Ok(Source {
                    labels,
                    said,
                    fault,
                });
            }
        };
        if let Some(statement) = statement {
            said.push(Said {
                statement,
                slot,
                line,
            })?;
            slot += slots_of(&statement);
        }
        line += 1;
        rest = behind_line(read.rest);
    }
    Ok(Source {
        labels,
        said,
        fault: None,
    })
}
