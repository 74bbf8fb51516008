use bench::Refusal;
use port::{BoardPort, Port, Reading, ServicePort};
use program::Fault;
use std::alloc::Global;

// Puts in 0, 1, 2 and so on, until one is refused.
fn write_puts<F: FnMut(u8) -> Result<(), Fault>>(
    out: &mut String,
    what: &str,
    mut put: F,
) -> anyhow::Result<()>
    requires { F.IsAlwaysCallable put }
{
    for number in 0..100 {
        if let Err(fault) = put(number) {
            write!(out, " {what} {number} {}.", Refusal(fault))?;
            break;
        }
    }
    Ok(())
}

fn write_offers<P: Port>(out: &mut String, port: &mut P) -> anyhow::Result<()> {
    write_puts(out, "offer", |number| {
        let value = i32::from(number);
        port.offer(Reading { value })
    })
}

fn write_shows<P: Port>(out: &mut String, port: &mut P) -> anyhow::Result<()> {
    write_puts(out, "show", |byte| port.show(byte))
}

// Takes what waits, and once more.
fn write_takes<P: Port>(out: &mut String, port: &mut P) -> anyhow::Result<()> {
    out.push_str(" take")?;
    while let Some(reading) = port.take() {
        write!(out, " {}", reading.value)?;
    }
    out.push_str(" none.")?;
    Ok(())
}

// Writes what a port answers to its questions.
fn write_questions<P: Port>(out: &mut String, port: &P) -> anyhow::Result<()> {
    let openings = port.openings();
    let space = port.space();
    let shown = port.shown();
    write!(
        out,
        " openings {openings}, space {space}, shown {shown}, last "
    )?;
    match port.shown_at(shown.saturating_sub(1)) {
        Some(byte) => write!(out, "{byte}")?,
        None => out.push_str("none")?,
    }
    match port.shown_at(shown) {
        Some(_) => out.push_str(" and more.")?,
        None => out.push('.')?,
    }
    Ok(())
}

// An empty port is filled, emptied and filled again.
fn port_answer<P: Port>(heap: Global, port: &mut P) -> anyhow::Result<String> {
    let mut out = String::new(heap);
    write_questions(&mut out, port)?;
    write_takes(&mut out, port)?;
    write_offers(&mut out, port)?;
    write_shows(&mut out, port)?;
    write_questions(&mut out, port)?;
    let _ = port.take();
    let _ = port.offer(Reading { value: -1 });
    write_takes(&mut out, port)?;
    port.clear();
    write_questions(&mut out, port)?;
    write_offers(&mut out, port)?;
    write_shows(&mut out, port)?;
    Ok(out)
}

pub(crate) fn board_answer(heap: Global) -> anyhow::Result<String> {
    port_answer(heap, &mut BoardPort::new())
}

// A service port over memories of so many bytes.
pub(crate) fn service_answer(heap: Global, places: usize, bytes: usize) -> anyhow::Result<String> {
    let mut places = vec![in heap; 1; places]?;
    let mut bytes = vec![in heap; 1; bytes]?;
    port_answer(heap, &mut ServicePort::new(&mut places, &mut bytes))
}
