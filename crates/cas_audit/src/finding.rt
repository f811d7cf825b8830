//! What an audit finds in a text, and the line that says it.

ghost use Rattle.std.specs.Prelude.{◌≡◌, IfOk};
ghost use Rattle.cas_audit.specs.Spelling.Texts.{finding_line};

use crate::auditor::Broken;
use cas_change_text::Why;
use cas_lines::answer::print_bad;
use std::alloc::{AllocError, Global};

/// What an audit finds in a text.
#[derive(Clone, Copy, Debug, PartialEq, Eq)]
pub enum Finding {
    /// The text spells a legal record.
    Legal,
    /// It spells a record that is not legal, and breaks this rule first.
    Broken(Broken),
    /// It spells no record. The line of this number, counted from 1, is the first that is missing or is not what must stand there.
    Bad { line: u32, why: Why },
}

/// The line that says what was found, with its newline.
pub fn print_finding(alloc: Global, finding: Finding) -> Result<Vec<u8>, AllocError>
    ensures { IfOk result (λ line. line.items ≡ finding_line finding) }
{
    match finding {
        Finding::Legal => Ok(format!(in alloc; "legal\n")?.into_bytes()),
        Finding::Broken(Broken { rule, at }) => {
            Ok(format!(in alloc; "broken L{rule} at {at}\n")?.into_bytes())
        }
        Finding::Bad { line, why } => print_bad(alloc, line, why),
    }
}
