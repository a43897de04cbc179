ghost use Rattle.std.specs.Prelude.{◌≡◌, ◌∷◌, ◌++◌, [], OnOk, codes};
ghost use Rattle.std.specs.Fmt.{decimal};
ghost use Rattle.st_script.specs.Scripts.{answer_lines};

use st_report::{put_number, put_text};
use std::alloc::AllocError;

/// Appends the number that begins a line of the output. The answer is appended after it, with a
/// space before each word, and then the end of the line.
pub fn begin_answer(text: &mut Vec<u8>, number: u64) -> Result<(), AllocError>
    ensures { OnOk result (text.new.items ≡ text.old.items ++ decimal number) }
{
    put_number(text, number)
}

/// Appends the end of a line.
pub fn end_answer(text: &mut Vec<u8>) -> Result<(), AllocError>
    ensures { OnOk result (text.new.items ≡ text.old.items ++ codes "\n") }
{
    put_text(text, b"\n")
}

/// Appends the line of an event that has this one answer.
pub fn put_answer(text: &mut Vec<u8>, number: u64, answer: &[u8]) -> Result<(), AllocError>
    ensures { OnOk result (text.new.items ≡ text.old.items ++ answer_lines number (answer.now ∷ [])) }
{
    begin_answer(text, number)?;
    put_text(text, answer)?;
    end_answer(text)
}
