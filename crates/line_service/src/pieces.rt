// The answers to the lines of one piece of the input.
ghost use Rattle.std.specs.Prelude.{◌≡◌, ◌≤◌, ◌++◌, ◌∷◌, [], ℕ, List, IfOk, IfErr, OnOk};
ghost use Rattle.ats_io.specs.Faults.{Rose};
ghost use Rattle.line_service.specs.Lines.{handed as handed_line, heard_from};
ghost use Rattle.line_service.specs.Answered.{BreaksOff, HasAnswered, Says};
ghost use Rattle.line_service.specs.declared.server.Course.TheVariants.{GoesOn};
ghost use Rattle.line_service.specs.declared.server.ServeFault.TheVariants.{Memory};

use crate::hearing::{NEWLINE, handed, keep};
use crate::{Course, LineServer, ServeFault};
use ats_io::{Sink, WriteFault, write_all};
use std::alloc::Global;

// Answers the line that is complete now.
fn answer_line<L: LineServer>(
    server: &mut L,
    begun: &mut Vec<u8>,
    text: &mut Vec<u8>,
) -> Result<Course, ServeFault>
    ensures answer { IfOk result (λ course. (added : List ℕ)
        × L.answers server.old (handed_line begun.old.items) server.new added course
        × (text.new.items ≡ text.old.items ++ added)) }
    ensures begun { OnOk result (begun.new.items ≡ []) }
    ensures memory { IfErr result (λ e. e ≡ Memory) }
{
    let course = server.answer(handed(begun), text)?;
    begun.clear();
    Ok(course)
}

// Goes on by a byte. A newline has the line answered.
fn answer_byte<L: LineServer>(
    server: &mut L,
    begun: &mut Vec<u8>,
    byte: u8,
    text: &mut Vec<u8>,
) -> Result<Course, ServeFault>
    ensures answers { IfOk result (λ course.
        HasAnswered L.answers server.old begun.old.items (byte ∷ []) server.new course text.old.items text.new.items) }
    ensures begun { OnOk result (begun.new.items ≡ (heard_from begun.old.items (byte ∷ [])).begun) }
    ensures memory { IfErr result (λ e. e ≡ Memory) }
{
    if byte == NEWLINE {
        return answer_line(server, begun, text);
    }
    keep(begun, byte)?;
    Ok(Course::GoesOn)
}

// Adds the answers to the lines that a piece completes, up to one that ends the session.
fn answer_bytes<L: LineServer>(
    server: &mut L,
    begun: &mut Vec<u8>,
    piece: &[u8],
    text: &mut Vec<u8>,
) -> Result<Course, ServeFault>
    ensures answers { IfOk result (λ course.
        HasAnswered L.answers server.old begun.old.items piece.now server.new course text.old.items text.new.items) }
    ensures begun { IfOk result
        (λ course. course ≡ GoesOn → begun.new.items ≡ (heard_from begun.old.items piece.now).begun) }
    ensures memory { IfErr result (λ e. e ≡ Memory) }
{
    for byte in piece {
        let course = answer_byte(server, begun, *byte, text)?;
        if let Course::Ends = course {
            return Ok(Course::Ends);
        }
    }
    Ok(Course::GoesOn)
}

/// Answers the lines that a piece of the input completes, and writes the answers: what the sink took is exactly
/// those. Of the line that isn't complete the bytes are kept, and no more than its first 258.
///
/// # Errors
///
/// Out of memory, where nothing of the piece was answered; a fault of the sink, which then has taken a first part of
/// the answers.
pub(crate) fn answer_piece<L: LineServer, K: Sink>(
    alloc: Global,
    server: &mut L,
    begun: &mut Vec<u8>,
    piece: &[u8],
    out: &mut K,
) -> Result<Course, ServeFault>
    ensures flush { IfOk result
        (λ course. Says L.answers server.old (heard_from begun.old.items piece.now).lines server.new course
        (K.taken out.old) (K.taken out.new)) }
    ensures begun { IfOk result
        (λ course. course ≡ GoesOn → begun.new.items ≡ (heard_from begun.old.items piece.now).begun) }

    ensures fault { IfErr result (BreaksOff L.answers server.old (heard_from begun.old.items piece.now).lines
        ⊥ (Rose (K.faults out.old) (K.faults out.new)) (K.taken out.old) (K.taken out.new)) }

    ensures never_falls { K.faults out.old ≤ K.faults out.new }
{
    let mut text = Vec::new(alloc);
    let course = answer_bytes(server, begun, piece, &mut text)?;
    match write_all(out, &text) {
        Ok(()) => Ok(course),
        Err(WriteFault) => Err(ServeFault::Write),
    }
}
