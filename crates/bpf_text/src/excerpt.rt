//! Parts of a text that is refused, for who tells of it.

ghost use Rattle.std.specs.Prelude.{◌≡◌, ◌-◌, [], option_map, get_or};
ghost use Rattle.bpf_text.specs.Sources.{lines_of, without_comment};
ghost use Rattle.bpf_text.specs.code.LineReading.{line_in, name_said};

use crate::line::{cut_line, statement_in};
use crate::statement::Statement;

/// The line of a text with a number, counted from 1, without its comment; empty behind the last.
pub fn code_at(text: &[u8], line: usize) -> &[u8]
    ensures { result.now ≡ without_comment (get_or (lines_of text.now) (line - 1) []) }
{
    let mut rest = text;
    let mut left = line.saturating_sub(1);
    'above: while left > 0 {
        let (_, more) = cut_line(rest);
        let Some(more) = more else {
            return &[];
        };
        rest = more;
        left -= 1;
    }
    cut_line(rest).0
}

/// The label that the jump or call of a line without its comment leads to, if it has one.
pub fn target_name(line: &[u8]) -> Option<&[u8]>
    ensures { option_map (λ name. name.now) result ≡ name_said (line_in line.now) }
{
    match statement_in(line) {
        Ok(Some(Statement::ToLabel(_, name))) => Some(name),
        Ok(Some(Statement::Plain(_))) => None,
        Ok(None) => None,
        Err(_) => None,
    }
}
