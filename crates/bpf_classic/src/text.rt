//! The text of `tcpdump -ddd`: how many instructions there are, and on a line for each its code, its two distances and its constant. The
//! text of `tcpdump -dd`: a row of C for each. Numbers are decimal, or hexadecimal behind `0x`.

ghost use Rattle.std.specs.Prelude.{◌≡◌, ◌⊎◌, ◌++◌, [], ◌∷◌, Ok, Err, IfOk, IfErr, OnOk};
ghost use Rattle.bpf_classic.specs.Text.{ended, may_count, raws_of};
ghost use Rattle.bpf_classic.specs.declared.fault.TextFault.TheVariants.{Memory};

use crate::border::{Border, cut};
use crate::fault::TextFault;
use crate::line::{TextLine, line_of};
use crate::raw::Raw;
use std::alloc::{AllocError, Global};

/// How many instructions follow a line, as it says.
#[derive(Clone, Copy)]
struct SaidCount {
    line: usize,
    count: u32,
}

fn push(raws: &mut Vec<Raw>, raw: Raw) -> Result<(), AllocError>
    ensures { OnOk result (raws.new.items ≡ raws.old.items ++ raw ∷ []) }
{
    raws.push(raw)?;
    Ok(())
}

/// Whether a line may say how many follow.
fn may_count(said: Option<SaidCount>, raws: &[Raw]) -> bool
    ensures { result ≡ may_count said raws.now }
{
    said.is_none() && raws.is_empty()
}

/// The instructions, if there are as many as a line says.
fn ended(said: Option<SaidCount>, raws: Vec<Raw>) -> Result<Vec<Raw>, TextFault>
    ensures ok { IfOk result (λ v. (ended said raws.items ≡ Ok v.items)) }
    ensures err { IfErr result (λ fault. ended said raws.items ≡ Err fault) }
{
    match said {
        None => Ok(raws),
        Some(SaidCount { line, count }) => {
            let found = raws.len();
            if count as usize == found {
                Ok(raws)
            } else {
                Err(TextFault::Count {
                    line,
                    said: count,
                    found,
                })
            }
        }
    }
}

/// The instructions of a text. It is refused at its first line that is neither blank nor an instruction; only in front of them all a line may
/// say how many follow, and then as many have to.
pub fn raws_of(alloc: Global, text: &[u8]) -> Result<Vec<Raw>, TextFault>
    ensures ok { IfOk result (λ raws. raws_of text.now ≡ Ok raws.items) }
    ensures err { IfErr result (λ fault. (fault ≡ Memory) ⊎ (raws_of text.now ≡ Err fault)) }
{
    let mut raws = Vec::new(alloc);
    let mut said = None;
    let mut line = 0;
    let mut rest = Some(text);
    'lines: while let Some(text) = rest {
        let (part, behind) = cut(Border::Line, text);
        rest = behind;
        line += 1;
        match line_of(part) {
            TextLine::Blank => {}
            TextLine::Count(count) if may_count(said, &raws) => said = Some(SaidCount {
                line,
                count,
            }),
            TextLine::Row(raw) => push(&mut raws, raw)?,
            TextLine::Count(_) | TextLine::Other => return Err(TextFault::Row { line }),
        }
    }
    ended(said, raws)
}
