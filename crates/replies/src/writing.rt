//! Writing an answer.
ghost use Rattle.std.specs.Prelude.{◌≡◌};
ghost use Rattle.ideals.specs.Views.{parts_of};
ghost use Rattle.written.specs.Written.{Adds};
ghost use Rattle.replies.specs.Replies.{answered};
ghost use Rattle.replies.specs.Written.{read_text, order_name, order_text, fault_text, refusal_text, said_text, line_of};

use fault::{LabelFault, Layer};
use ideals::ideal::IdealIn;
use protocol::answer::{Answer, Refusal};
use std::alloc::AllocError;
use std::cmp::Ordering;
use written::number::write_number;
use written::writable::Writable;

fn write_read(out: &mut Vec<u8>, count: usize, ideal: IdealIn<'_>) -> Result<(), AllocError>
    ensures { Adds result out.old.items out.new.items (read_text count (parts_of ideal.entry)) }
{
    out.extend_from_slice(b"read ")?;
    write_number(out, count)?;
    out.push(b' ')?;
    ideal.write(out)
}

// `Debug` of an Ordering writes these names too, but to a text and not to bytes.
fn order_name(order: Ordering) -> &'static [u8]
    ensures { result.now ≡ order_name order }
{
    match order {
        Ordering::Less => b"Less",
        Ordering::Equal => b"Equal",
        Ordering::Greater => b"Greater",
    }
}

fn write_order(out: &mut Vec<u8>, order: Ordering) -> Result<(), AllocError>
    ensures { Adds result out.old.items out.new.items (order_text order) }
{
    out.extend_from_slice(b"order ")?;
    out.extend_from_slice(order_name(order))
}

fn write_fault(out: &mut Vec<u8>, fault: LabelFault) -> Result<(), AllocError>
    ensures { Adds result out.old.items out.new.items (fault_text fault) }
{
    write_number(out, usize::from(fault.number()))?;
    out.extend_from_slice(b" at ")?;
    write_number(out, fault.place())?;
    out.extend_from_slice(b" layer ")?;
    match fault.layer() {
        Layer::Label => out.extend_from_slice(b"label"),
    }
}

fn write_refusal(out: &mut Vec<u8>, fault: LabelFault) -> Result<(), AllocError>
    ensures { Adds result out.old.items out.new.items (refusal_text fault) }
{
    out.extend_from_slice(b"refused ")?;
    write_fault(out, fault)
}

fn write_said<'a>(
    out: &mut Vec<u8>,
    answer: &'a Result<(&'a [u8], Answer), Refusal>,
) -> Result<(), AllocError>
    ensures { Adds result out.old.items out.new.items (said_text (answered answer.now)) }
{
    match *answer {
        Ok((text, Answer::Parts(ref semver))) => IdealIn { text, semver }.write(out),
        Ok((text, Answer::Read(count, ref semver))) => {
            write_read(out, count, IdealIn { text, semver })
        }
        Ok((_, Answer::Order(order))) => write_order(out, order),
        Err(Refusal::Bad) => out.extend_from_slice(b"bad command"),
        Err(Refusal::Label(fault)) => write_refusal(out, fault),
    }
}

/// Adds the line of an answer; the places of its parts are in the text beside it.
pub fn write_answer<'a>(
    out: &mut Vec<u8>,
    answer: &'a Result<(&'a [u8], Answer), Refusal>,
) -> Result<(), AllocError>
    ensures { Adds result out.old.items out.new.items (line_of (answered answer.now)) }
{
    write_said(out, answer)?;
    out.push(b'\n')?;
    Ok(())
}
