// Whether a paper is text at all.
ghost use Rattle.std.specs.Prelude.{IsUtf8, MatchResult};
ghost use Rattle.problems.specs.Texts.{NotText};

use crate::error::PaperError;
use crate::expected::InPaper;
use paper_text::lines::line_after;
use std::str::from_utf8;

// A problem at the line of the first byte that is not UTF-8.
pub fn check_utf8(bytes: &[u8]) -> Result<(), PaperError>
    ensures { MatchResult result (λ _. IsUtf8 bytes.now) (λ e. NotText bytes.now e) }
{
    let Err(error) = from_utf8(bytes) else {
        return Ok(());
    };
    let valid = error.valid_up_to();
    Err(PaperError {
        line: line_after(&bytes[..valid]),
        problem: InPaper::Utf8.into(),
    })
}
