//! How a refusal is shown.
use fault::LabelFault;
use lines::shown::{column, shown};
use std::io;

/// Prints the text behind some words, a caret under the place, and the cause.
pub fn refuse(rt: &HostRuntime, front: &str, text: &[u8], fault: LabelFault) -> io::Result<()> {
    let heap = rt.alloc();
    let number = fault.number();
    let place = fault.place();
    println!(rt; "{front}{}", shown(heap, text)?)?;
    let width = front
        .len()
        .saturating_add(column(text, place))
        .saturating_add(1);
    println!(rt; "{:>width$}", "^")?;
    println!(rt; "  cause {number}, place {place}: {fault}")
}
